//! Folds of few numbers, by hand.
use crate::{Fold, combine, identity};

#[test]
fn each_fold_begins_with_its_identity(rt: HostRuntime) {
    assert_eq!(rt; identity(Fold::Sum), 0);
    assert_eq!(rt; identity(Fold::Min), 9_223_372_036_854_775_807);
    assert_eq!(rt; identity(Fold::Max), -9_223_372_036_854_775_808);
}

#[test]
fn sums_wrap_and_the_least_and_the_greatest_are_taken(rt: HostRuntime) {
    assert_eq!(rt; combine(Fold::Sum, i64::MAX, 1), i64::MIN);
    assert_eq!(rt; combine(Fold::Sum, -3, 5), 2);
    assert_eq!(rt; combine(Fold::Min, -3, 5), -3);
    assert_eq!(rt; combine(Fold::Max, -3, 5), 5);
}
