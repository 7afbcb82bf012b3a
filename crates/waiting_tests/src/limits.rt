// Where a waiting chart may be laid, and what it is where it may not.
use super::lone::Lone;
use chart::{Chart, Refusal};
use drawn::Drawn;
use std::test::Fail;
use waiting::{Waiting, first_position, may_be_laid, positions};

fn row_of(count: usize) -> Result<Drawn, Refusal> {
    let mut chart = Drawn::new();
    for _ in 0..count {
        let vertex = chart.place(0, 3)?;
        chart.join(vertex, 0, 1)?;
    }
    Ok(chart)
}

#[test]
fn two_layers_over_34_vertices(rt: HostRuntime) -> Result<(), Fail> {
    let one = Waiting { below: row_of(34)? };
    assert_eq!(rt; one.size(), 340);
    assert!(rt; may_be_laid(&one));
    assert_eq!(rt; positions(&one), 4080);
    let two = Waiting { below: one };
    assert_eq!(rt; two.size(), 4080);
    assert_eq!(rt; two.height(), 12);
    assert_eq!(rt; two.colour(4079), Some(11));
    assert_eq!(rt; two.degree(4079), Some(1));
    assert_eq!(rt; two.owner(4080), None);
    assert!(rt; !may_be_laid(&two));
    Ok(())
}

#[test]
fn two_layers_over_35_vertices(rt: HostRuntime) -> Result<(), Fail> {
    let one = Waiting { below: row_of(35)? };
    assert_eq!(rt; one.size(), 350);
    assert!(rt; !may_be_laid(&one));
    assert_eq!(rt; positions(&one), 4200);
    assert_eq!(rt; first_position(&one, 0), None);
    let two = Waiting { below: one };
    assert_eq!(rt; two.size(), 0);
    assert_eq!(rt; two.height(), 0);
    assert_eq!(rt; two.owner(0), None);
    Ok(())
}

#[test]
fn heights_28_and_30(rt: HostRuntime) {
    let high = Lone { height: 28 };
    assert!(rt; may_be_laid(&high));
    assert_eq!(rt; positions(&high), 30);
    let one = Waiting { below: high };
    assert_eq!(rt; one.size(), 30);
    assert_eq!(rt; one.height(), 30);
    assert_eq!(rt; one.colour(0), Some(30));
    assert_eq!(rt; one.colour(2), Some(28));
    assert_eq!(rt; one.colour(29), Some(29));
    assert!(rt; !may_be_laid(&one));
    let two = Waiting { below: one };
    assert_eq!(rt; two.size(), 0);
    assert_eq!(rt; two.height(), 0);
}

#[test]
fn over_a_chart_of_height_30(rt: HostRuntime) {
    let higher = Lone { height: 30 };
    assert!(rt; !may_be_laid(&higher));
    assert_eq!(rt; first_position(&higher, 0), None);
    let one = Waiting { below: higher };
    assert_eq!(rt; one.size(), 0);
    assert_eq!(rt; one.height(), 0);
    assert_eq!(rt; one.colour(0), None);
    assert!(rt; may_be_laid(&one));
    let two = Waiting { below: one };
    assert_eq!(rt; two.size(), 0);
    assert_eq!(rt; two.height(), 2);
}

#[test]
fn over_a_chart_without_vertices(rt: HostRuntime) {
    let below = Drawn::new();
    assert!(rt; may_be_laid(&below));
    assert_eq!(rt; positions(&below), 0);
    let chart = Waiting { below };
    assert_eq!(rt; chart.size(), 0);
    assert_eq!(rt; chart.height(), 10);
    assert_eq!(rt; chart.owner(0), None);
}
