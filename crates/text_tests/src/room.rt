// Writing where the room is just enough, and where it is one byte less.
use chart::Refusal;
use drawn::Drawn;
use std::test::Fail;
use text::write;

#[test]
fn just_enough_and_one_less(rt: HostRuntime) -> Result<(), Fail> {
    let mut chart = Drawn::new();
    chart.place(0, 1)?;
    chart.join(0, 0, 12)?;
    let mut enough = [9u8; 42];
    assert_eq!(rt; write(&chart, &mut enough), Ok(42));
    assert_eq!(rt; enough[0], b'v');
    assert_eq!(rt; enough[41], b'\n');
    let mut less = [9u8; 41];
    assert_eq!(rt; write(&chart, &mut less), Err(Refusal::ShortBuffer));
    assert_eq!(rt; less, [9u8; 41]);
    assert_eq!(rt; Refusal::ShortBuffer.number(), 24);
    Ok(())
}
