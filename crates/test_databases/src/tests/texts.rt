//! Texts of numbers, prefixes and faults.

use edit_history::{EditFault, RedoFault, UndoFault};
use edit_script::ScriptFault;
use lsa_codec::{Addr, AreaId, Decimal, LsaFault, MakeFault, Metric, Prefix, RouterId};
use lsdb::{DumpFault, DumpFaultKind, SlotFault};
use std::alloc::Global;
use std::test::*;

/// What is printed.
#[derive(Clone, Copy)]
enum Shown {
    /// A number.
    Number(u64),
    /// A router ID.
    Router(u32),
    /// An area ID.
    Area(u32),
    /// An address.
    Address(u32),
    /// The prefix of an address and a length.
    Prefix(u32, u8),
    /// A metric.
    Metric(u32),
    /// A fault of bytes.
    Lsa(LsaFault),
    /// A fault of making.
    Make(MakeFault),
    /// A fault of a dump at an offset.
    Dump(usize, DumpFaultKind),
    /// A fault of slots.
    Slot(SlotFault),
    /// A fault of lines.
    Script(ScriptFault),
    /// Why an edit is refused.
    Edit(EditFault),
    /// Why edits are not taken back.
    Undo(UndoFault),
    /// Why edits are not carried out again.
    Redo(RedoFault),
}

/// What is printed, the code of a fault of lines or edits, whose name is its text, and the text.
const TEXTS: &[(Shown, &str, &str)] = &[
    (Shown::Number(0), "", "0"),
    (Shown::Number(9), "", "9"),
    (Shown::Number(10), "", "10"),
    (
        Shown::Number(18446744073709551615),
        "",
        "18446744073709551615",
    ),
    (Shown::Router(0xc0a80009), "", "192.168.0.9"),
    (Shown::Area(10), "", "0.0.0.10"),
    (Shown::Address(0xff640100), "", "255.100.1.0"),
    (Shown::Prefix(0x0a070000, 16), "", "10.7.0.0/16"),
    (Shown::Metric(16777215), "", "16777215"),
    (Shown::Lsa(LsaFault::Truncated), "", "Truncated"),
    (Shown::Lsa(LsaFault::Length), "", "Length"),
    (Shown::Lsa(LsaFault::BadType), "", "BadType"),
    (Shown::Lsa(LsaFault::Body), "", "Body"),
    (Shown::Lsa(LsaFault::Checksum), "", "Checksum"),
    (Shown::Lsa(LsaFault::Mask), "", "Mask"),
    (Shown::Lsa(LsaFault::RouterId), "", "RouterId"),
    (Shown::Lsa(LsaFault::ZeroCost), "", "ZeroCost"),
    (Shown::Lsa(LsaFault::OutOfMemory), "", "OutOfMemory"),
    (Shown::Make(MakeFault::NoLink), "", "NoLink"),
    (Shown::Make(MakeFault::ZeroCost), "", "ZeroCost"),
    (Shown::Make(MakeFault::TooLong), "", "TooLong"),
    (Shown::Make(MakeFault::OutOfMemory), "", "OutOfMemory"),
    (
        Shown::Dump(99, DumpFaultKind::TrailingBytes),
        "",
        "L4 TrailingBytes at 99",
    ),
    (
        Shown::Dump(13, DumpFaultKind::Lsa(LsaFault::ZeroCost)),
        "",
        "L9 Lsa ZeroCost at 13",
    ),
    (
        Shown::Dump(129, DumpFaultKind::BadHistory(1)),
        "",
        "L15 BadHistory 1 at 129",
    ),
    (Shown::Slot(SlotFault::NoArea), "", "NoArea"),
    (Shown::Slot(SlotFault::OutOfMemory), "", "OutOfMemory"),
    (Shown::Script(ScriptFault::Empty), "S1", "Empty"),
    (Shown::Script(ScriptFault::UnknownWord), "S2", "UnknownWord"),
    (Shown::Script(ScriptFault::MissingWord), "S3", "MissingWord"),
    (Shown::Script(ScriptFault::ExtraWord), "S4", "ExtraWord"),
    (Shown::Script(ScriptFault::BadNumber), "S5", "BadNumber"),
    (Shown::Script(ScriptFault::BadAddress), "S6", "BadAddress"),
    (Shown::Script(ScriptFault::BadPrefix), "S7", "BadPrefix"),
    (Shown::Script(ScriptFault::BadBranch), "S8", "BadBranch"),
    (Shown::Edit(EditFault::NoArea), "E1", "NoArea"),
    (Shown::Edit(EditFault::NoRouter), "E2", "NoRouter"),
    (Shown::Edit(EditFault::NoLink), "E3", "NoLink"),
    (Shown::Edit(EditFault::ZeroCost), "E4", "ZeroCost"),
    (Shown::Edit(EditFault::SameRouter), "E5", "SameRouter"),
    (Shown::Edit(EditFault::NoNetwork), "E6", "NoNetwork"),
    (Shown::Edit(EditFault::NoSummary), "E7", "NoSummary"),
    (Shown::Edit(EditFault::NoExternal), "E8", "NoExternal"),
    (Shown::Edit(EditFault::KeyTaken), "E9", "KeyTaken"),
    (Shown::Edit(EditFault::TooLong), "E10", "TooLong"),
    (Shown::Edit(EditFault::Full), "E11", "Full"),
    (Shown::Edit(EditFault::HistoryFull), "E12", "HistoryFull"),
    (Shown::Edit(EditFault::OutOfMemory), "E13", "OutOfMemory"),
    (Shown::Undo(UndoFault::NothingToUndo), "U1", "NothingToUndo"),
    (Shown::Redo(RedoFault::NothingToRedo), "U2", "NothingToRedo"),
];

/// The text that is printed.
fn printed(alloc: Global, shown: Shown) -> Result<String, Fail> {
    Ok(match shown {
        Shown::Number(number) => {
            let number = Decimal(number);
            format!(in alloc; "{number}")?
        }
        Shown::Router(router) => {
            let router = RouterId(router);
            format!(in alloc; "{router}")?
        }
        Shown::Area(area) => {
            let area = AreaId(area);
            format!(in alloc; "{area}")?
        }
        Shown::Address(address) => {
            let address = Addr(address);
            format!(in alloc; "{address}")?
        }
        Shown::Prefix(address, len) => {
            let prefix = Prefix::new(Addr(address), len).ok_or("a prefix")?;
            format!(in alloc; "{prefix}")?
        }
        Shown::Metric(metric) => {
            let metric = Metric::new(metric).ok_or("a metric")?;
            format!(in alloc; "{metric}")?
        }
        fault => printed_fault(alloc, fault)?,
    })
}

/// The text that is printed of a fault.
fn printed_fault(alloc: Global, shown: Shown) -> Result<String, Fail> {
    Ok(match shown {
        Shown::Lsa(fault) => format!(in alloc; "{fault}")?,
        Shown::Make(fault) => format!(in alloc; "{fault}")?,
        Shown::Dump(offset, kind) => {
            let fault = DumpFault { offset, kind };
            format!(in alloc; "{fault}")?
        }
        Shown::Slot(fault) => format!(in alloc; "{fault}")?,
        Shown::Script(fault) => format!(in alloc; "{fault}")?,
        Shown::Edit(fault) => format!(in alloc; "{fault}")?,
        Shown::Undo(fault) => format!(in alloc; "{fault}")?,
        Shown::Redo(fault) => format!(in alloc; "{fault}")?,
        _ => Err("a fault")?,
    })
}

/// Whether a fault has this code and this name, or no code where it is empty.
fn has_code(shown: Shown, code: &str, name: &str) -> bool {
    match shown {
        Shown::Script(fault) => fault.code() == code && fault.name() == name,
        Shown::Edit(fault) => fault.code() == code && fault.name() == name,
        Shown::Undo(fault) => fault.code() == code && fault.name() == name,
        Shown::Redo(fault) => fault.code() == code && fault.name() == name,
        _ => code.is_empty(),
    }
}

#[test]
fn prints_numbers_names_and_faults(rt: HostRuntime) -> Result<(), Fail> {
    for (number, (shown, code, text)) in TEXTS.iter().enumerate() {
        assert_eq!(rt;
            printed(rt.alloc(), *shown)?.as_str(),
            *text,
            "row {number}"
        );
        assert!(rt; has_code(*shown, code, text), "row {number}");
    }
    let zero_cost = DumpFaultKind::Lsa(LsaFault::ZeroCost);
    assert_eq!(rt;
        (zero_cost.code(), zero_cost.name()),
        ("L9", "Lsa ZeroCost")
    );
    Ok(())
}
