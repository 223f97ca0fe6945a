//! What calls tell, as text.
use iv_catalogue::Fault;
use std::panic::Expect;
use std::process::Abort;

/// Adds these words.
pub fn show(rt: &impl Abort, words: &str, shown: &mut String) {
    shown.push_str(words).expect(rt, "memory");
}

/// Adds a number between these words.
pub fn show_number(rt: &impl Abort, before: &str, number: u64, after: &str, shown: &mut String) {
    write!(shown, "{before}{number}{after}").expect(rt, "memory");
}

/// Numbers, each with a space after it, and a bar.
pub fn show_numbers(rt: &impl Abort, numbers: &[u64], shown: &mut String) {
    for number in numbers {
        show_number(rt, "", *number, " ", shown);
    }
    show(rt, "| ", shown);
}

/// A number, and a bar.
pub fn show_count(rt: &impl Abort, number: u64, shown: &mut String) {
    show_number(rt, "", number, " | ", shown);
}

/// A number that there may be, and a bar.
pub fn show_some(rt: &impl Abort, number: Option<u64>, shown: &mut String) {
    match number {
        Some(number) => show_count(rt, number, shown),
        None => show(rt, "none | ", shown),
    }
}

/// Violations: each the place of its constraint and the number of its row; and a bar.
pub fn show_faults(rt: &impl Abort, faults: &[Fault], shown: &mut String) {
    for fault in faults {
        show_number(rt, "", u64::from(fault.constraint.place()), ":", shown);
        show_number(rt, "", fault.row, " ", shown);
    }
    show(rt, "| ", shown);
}

/// The violations of a list that was made.
pub fn show_listed(rt: &impl Abort, faults: Vec<Fault>, shown: &mut String) {
    show_faults(rt, faults.as_slice(), shown);
    drop(faults);
}

/// Asserts that this is shown.
pub fn compare(rt: &impl Abort, name: &str, shown: &str, wanted: &str) {
    assert_eq!(rt; shown, wanted, "{name}");
}
