use super::*;
use ebcdic_names::Name8;
use std::test::Fail;

// A group that holds three generations, and its limit is three.
#[test]
fn a_full_group(rt: HostRuntime) -> Result<(), Fail> {
    let gens = [
        Name8::read("G0003V00")?,
        Name8::read("G0002V01")?,
        Name8::read("G0001V00")?,
    ];
    assert_eq!(rt; relative(&gens, 1), Some(Name8::read("G0004V00")?));
    assert_eq!(rt; relative(&gens, 9996), Some(Name8::read("G9999V00")?));
    assert_eq!(rt; relative(&gens, 9997), None);
    assert_eq!(rt; relative(&gens, 0), Some(gens[0]));
    assert_eq!(rt; relative(&gens, -2), Some(gens[2]));
    assert_eq!(rt; relative(&gens, -9), None);
    assert_eq!(rt; overflow(&gens, 4, true), 0);
    assert_eq!(rt; overflow(&gens, 3, false), 1);
    assert_eq!(rt; overflow(&gens, 3, true), 3);
    assert_eq!(rt; overflow(&gens, 0, true), 0);
    assert_eq!(rt; leaving(&gens, 3, false).first().copied(), Some(gens[2]));
    assert_eq!(rt; is_generation(&gens[1]), true);
    assert_eq!(rt; is_generation(&Name8::read("G001V000")?), false);
    Ok(())
}
