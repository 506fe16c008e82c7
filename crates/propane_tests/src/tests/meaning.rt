//! What definitions mean and what calls give, on cases that were worked by hand.
use std::test::Fail;
use test_calls::{wrong_cover, wrong_entry, wrong_least, wrong_relation};
use test_meanings::{
    outside_is_told, sample_has_its_texts, wrong_bits, wrong_class, wrong_graph, wrong_meaning,
    wrong_outcome, wrong_rank, wrong_text, wrong_words,
};

#[test]
fn no_row_is_wrong(rt: HostRuntime) -> Result<(), Fail> {
    let alloc = rt.alloc();
    assert_eq!(rt; wrong_bits(alloc)?, None);
    assert_eq!(rt; wrong_words(alloc)?, None);
    assert!(rt; outside_is_told(), "bits outside");
    assert_eq!(rt; wrong_rank(alloc)?, None);
    assert_eq!(rt; wrong_meaning(alloc)?, None);
    assert_eq!(rt; wrong_graph(alloc), None);
    assert_eq!(rt; wrong_text(alloc)?, None);
    assert!(rt; sample_has_its_texts(alloc), "the sample");
    assert_eq!(rt; wrong_class(alloc), None);
    assert_eq!(rt; wrong_outcome(alloc)?, None);
    assert_eq!(rt; wrong_relation(alloc)?, None);
    assert_eq!(rt; wrong_entry(alloc)?, None);
    assert_eq!(rt; wrong_cover(alloc)?, None);
    assert_eq!(rt; wrong_least(alloc)?, None);
    Ok(())
}
