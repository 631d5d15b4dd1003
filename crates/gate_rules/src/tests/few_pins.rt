//! The calls for tasks with few pins, beside those over lists.
use crate::{
    Count, apply_flip_flop, apply_last_flip_flop, apply_one_pin, apply_two_pins, forced_flip_flop,
    forced_last_flip_flop, forced_one_pin, forced_two_pins,
};
use sr_model::Kind;
use std::process::Abort;
use unroll::{PinWord, PinWords};

fn check_same(rt: &impl Abort, words: &[PinWord], others: &[PinWord]) {
    assert!(rt; words == others);
}

/// A gate of one pin or two, of other signals, whose words stand in the order of the signals.
pub(super) fn check_gate(
    rt: &impl Abort,
    kind: Kind,
    view: &PinWords,
    forced: &PinWords,
    new: &PinWords,
) {
    let family = kind.family();
    let mut tally = Count::new();
    match view.as_slice() {
        [target, pin] => {
            let known = [*target, *pin];
            check_same(rt, &forced_one_pin(family, known)[..], forced.as_slice());
            let words = apply_one_pin(family, known, &mut tally);
            check_same(rt, &words[..], new.as_slice());
            assert!(rt; tally.number() == 1);
        }
        [target, first, second] => {
            let known = [*target, *first, *second];
            check_same(rt, &forced_two_pins(family, known)[..], forced.as_slice());
            let words = apply_two_pins(family, known, &mut tally);
            check_same(rt, &words[..], new.as_slice());
            assert!(rt; tally.number() == 1);
        }
        _ => {}
    }
}

/// A flip-flop of signal 0 with a pin of another one. Its words stand by signal and then by chunk.
pub(super) fn check_flip_flop(rt: &impl Abort, valid: u64, view: &[PinWord], forced: &[PinWord]) {
    let mut tally = Count::new();
    match (view, forced) {
        ([own, pin], [own_due, pin_due]) => {
            let known = [*own, *pin];
            let words = forced_last_flip_flop(valid, known);
            check_same(rt, &words[..], &[*own_due, *pin_due][..]);
            let words = apply_last_flip_flop(valid, known, &mut tally);
            check_same(
                rt,
                &words[..],
                &[own_due.without(*own), pin_due.without(*pin)][..],
            );
        }
        ([own, next, pin], [own_due, next_due, pin_due]) => {
            let known = [*own, *pin, *next];
            let words = forced_flip_flop(valid, known);
            check_same(rt, &words[..], &[*own_due, *pin_due, *next_due][..]);
            let words = apply_flip_flop(valid, known, &mut tally);
            let new = [
                own_due.without(*own),
                pin_due.without(*pin),
                next_due.without(*next),
            ];
            check_same(rt, &words[..], &new[..]);
        }
        _ => assert!(rt; false),
    }
    assert!(rt; tally.number() == 1);
}
