// A call used again by a copy, and by a clone: of a clone's result the type allows a lack of memory, which does not come.
use market::call::Call;
use market::leg::Leg;
use market::legs::Legs;
use std::test::Fail;

#[test]
fn call_copied(rt: HostRuntime) -> Result<(), Fail> {
    let legs = [
        Leg {
            instrument: 1,
            ratio: 2,
        },
        Leg {
            instrument: 3,
            ratio: -1,
        },
    ];
    let call = Call::Define {
        participant: 7,
        legs: Legs::of(&legs),
    };
    let again = call;
    let cloned = call.clone()?;
    for call in [call, again, cloned] {
        let Call::Define { participant, legs } = call else {
            return Err(Fail::new("a define is copied as another call"));
        };
        assert_eq!(rt; participant, 7);
        assert_eq!(rt; legs.as_slice().len(), 2);
        assert_eq!(rt; legs.as_slice()[1].instrument, 3);
        assert_eq!(rt; legs.as_slice()[1].ratio, -1);
    }
    Ok(())
}
