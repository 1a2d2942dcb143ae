//! The checksums of generational-box 0.7.10 and slotmap for the same workloads.
use crate::{
    gbox_w1_text, gbox_w1_u64, gbox_w2_text, gbox_w2_u64, gbox_w3_text, gbox_w3_u64, gbox_w4_text,
    gbox_w4_u64, gbox_w5_text, gbox_w5_u64, gbox_w6_text, gbox_w6_u64, gbox_w8_text, gbox_w8_u64,
};

const N: u64 = 100;

const SEED: u64 = 7;

#[test]
fn numbers_are_those_of_other_stores(rt: HostRuntime) {
    assert_eq!(rt; gbox_w1_u64(rt.alloc(), N, SEED), 16918523086341909039);
    assert_eq!(rt; gbox_w2_u64(rt.alloc(), N, SEED), 15703732681835106644);
    assert_eq!(rt; gbox_w3_u64(rt.alloc(), N, SEED), 15359907562907620789);
    assert_eq!(rt; gbox_w4_u64(rt.alloc(), N, SEED), 5500413255359575958);
    assert_eq!(rt; gbox_w5_u64(rt.alloc(), N, SEED), 10333524125461845444);
    assert_eq!(rt; gbox_w6_u64(rt.alloc(), N, SEED), 7709241425685336969);
}

#[test]
fn texts_are_those_of_other_stores(rt: HostRuntime) {
    assert_eq!(rt; gbox_w1_text(rt.alloc(), N, SEED), 12377129709017089636);
    assert_eq!(rt; gbox_w2_text(rt.alloc(), N, SEED), 4666249275839112292);
    assert_eq!(rt; gbox_w3_text(rt.alloc(), N, SEED), 16915553880381381486);
    assert_eq!(rt; gbox_w4_text(rt.alloc(), N, SEED), 13250621175994697878);
    assert_eq!(rt; gbox_w5_text(rt.alloc(), N, SEED), 8511890446508880851);
    assert_eq!(rt; gbox_w6_text(rt.alloc(), N, SEED), 1682454262685737210);
}

// The checksums are those of a list of values that is drawn from in the same order.
#[test]
fn values_are_read_together(rt: HostRuntime) {
    assert_eq!(rt; gbox_w8_u64(rt.alloc(), N, SEED), 10377113825148676396);
    assert_eq!(rt; gbox_w8_text(rt.alloc(), N, SEED), 2250626866361919958);
    assert_eq!(rt; gbox_w8_u64(rt.alloc(), 1000, SEED), 684516486945130297);
}

#[test]
fn too_many_values_are_refused(rt: HostRuntime) {
    assert_eq!(rt; gbox_w1_u64(rt.alloc(), 1 << 32, SEED), 1);
}

// More values, whose slots grow while they are made.
#[test]
fn references_are_pointed_elsewhere(rt: HostRuntime) {
    assert_eq!(rt; gbox_w6_u64(rt.alloc(), 1000, SEED), 12730090599284133121);
    assert_eq!(rt; gbox_w6_text(rt.alloc(), 1000, SEED), 5587250987163723611);
}

#[test]
fn owners_are_released_in_order(rt: HostRuntime) {
    assert_eq!(rt; gbox_w5_u64(rt.alloc(), 250, SEED), 11033522042706426879);
    assert_eq!(rt; gbox_w5_text(rt.alloc(), 250, SEED), 10022876207046044209);
}
