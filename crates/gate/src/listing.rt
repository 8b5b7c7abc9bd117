// What a venue lists.
ghost use Rattle.market.specs.Combinations.{SoundTable};
ghost use Rattle.gate.specs.Made.{all_legs};

use crate::combinations::Combinations;
use crate::trading::Trading;
use market::product::Product;

// The product, the instruments with their bands and their phase, and the combinations, which always have the form that they must have (in bars, as a field can hold a fact in one way only).
#[derive(Drop)]
pub(crate) struct Listing {
    pub product: Product,
    pub trading: Trading,
    pub combinations: Combinations,
    ghost table: { ∥ SoundTable product trading.bands.items (all_legs combinations) ∥₁ },
}
