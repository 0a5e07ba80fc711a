//! The folding law and the laws of windows, called at a concrete type.
use mx_folding::chains_fold;
use mx_folding_needs::all_are_asked;
use mx_window::{
    current_by_key, last_of_joined, latest_are_window, none_passes_after_last, windows_join,
    windows_nest,
};

#[test]
fn laws_hold_of_numbers() {
    windows_join::<u64>();
    windows_nest::<u64>();
    latest_are_window::<u64>();
    last_of_joined::<u64>();
    none_passes_after_last::<u64>();
    current_by_key::<u64>();
    chains_fold::<u64, u64, u64, u64, u64, u64>();
    all_are_asked::<u64, u64, u64, u64, u64, u64>();
}
