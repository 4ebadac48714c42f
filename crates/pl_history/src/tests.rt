use super::*;
use pl_model::shows::Erases;
use std::test::Fail;

#[test]
fn answers_places_and_generations(rt: HostRuntime) -> Result<(), Fail> {
    let (history, mut hub, mut fronts) = History::new(rt.alloc(), 1)?;
    let mut front = fronts.pop().ok_or("one front")?;
    history.hand(&mut hub, &mut front, 1);
    let erases = Erases {
        engine: 1,
        place: 0,
    };
    let first = history.append(&mut hub, &mut front, &erases);
    let second = history.append(&mut hub, &mut front, &erases);
    assert_eq!(rt; (first, second), (Ok(0), Ok(1)));
    assert_eq!(rt; history.visit(&mut hub, &mut front), 2);
    assert_eq!(rt; history.revisit(&mut front), true);
    assert_eq!(rt; front.generation(), 2);
    assert_eq!(rt; hub.generation(), 2);
    Ok(())
}

#[test]
fn merges_two_fronts(rt: HostRuntime) -> Result<(), Fail> {
    let (history, mut hub, mut fronts) = History::new(rt.alloc(), 2)?;
    let mut first = fronts.pop().ok_or("a front")?;
    let mut second = fronts.pop().ok_or("another front")?;
    history.hand(&mut hub, &mut first, 1);
    history.apart(&mut first, &mut second);
    history.inform(&mut first, &mut second);
    history.merge(&mut second, first);
    let erases = Erases {
        engine: 1,
        place: 0,
    };
    assert_eq!(rt; history.append(&mut hub, &mut second, &erases), Ok(0));
    assert_eq!(rt; history.visit(&mut hub, &mut second), 1);
    assert_eq!(rt; history.tell(&mut hub, &mut second), 1);
    assert_eq!(rt; history.look(&mut hub, &mut second), 1);
    Ok(())
}
