//! The line that the program prints for the refusal of a log, and its exit status.

ghost use Rattle.std.specs.Prelude.{◌≡◌, ◌≤◌, ◌+◌, ◌++◌, codes, decimal, length};
ghost use Rattle.arrayvec.specs.ArrayString.{array_string_len};
ghost use Rattle.app_logs.specs.Faults.{log_fault_name, log_refusal_text, log_status, place_text};

use crate::fault::LogFault;
use arrayvec::ArrayString;

/// Returns the exit status: 1 for what a log's file has, 2 for a file that doesn't fit the words,
/// 4 for devices, 5 for memory.
pub fn log_status_of(fault: LogFault) -> u8
    ensures { result ≡ log_status fault }
{
    match fault {
        LogFault::NoLog => 2,
        LogFault::LogBusy => 4,
        LogFault::NotEmpty => 2,
        LogFault::BadHead => 1,
        LogFault::WrongScene => 2,
        LogFault::WrongSeats => 2,
        LogFault::LogDamaged(_) => 1,
        LogFault::NotALog(_) => 1,
        LogFault::HasBase(_) => 2,
        LogFault::LogFull => 4,
        LogFault::Device => 4,
        LogFault::Memory => 5,
    }
}

fn name_of(fault: LogFault) -> &'static str
    ensures name { result.now ≡ log_fault_name fault }
    ensures short { length result.now ≤ 20 }
{
    match fault {
        LogFault::NoLog => "NoLog",
        LogFault::LogBusy => "LogBusy",
        LogFault::NotEmpty => "NotEmpty",
        LogFault::BadHead => "BadHead",
        LogFault::WrongScene => "WrongScene",
        LogFault::WrongSeats => "WrongSeats",
        LogFault::LogDamaged(_) => "LogDamaged",
        LogFault::NotALog(_) => "NotALog",
        LogFault::HasBase(_) => "HasBase",
        LogFault::LogFull => "LogFull",
        LogFault::Device => "Device",
        LogFault::Memory => "Memory",
    }
}

/// Appends a word of at most 7 bytes and a number in decimal digits.
fn push_number(word: &str, number: u64, text: &mut ArrayString<64>)
    requires room { array_string_len text.old ≤ 28 }
    requires short { length word.now ≤ 7 }
    ensures { text.new.bytes ≡ text.old.bytes ++ word.now ++ decimal number }
{
    text.push_str(word);
    let mut buffer = itoa::Buffer::new();
    text.push_str(buffer.format(number));
}

/// Appends the frame or the entry of a fault, if it has one.
fn push_place(fault: LogFault, text: &mut ArrayString<64>)
    requires { array_string_len text.old ≤ 28 }
    ensures { text.new.bytes ≡ text.old.bytes ++ place_text fault }
{
    match fault {
        LogFault::LogDamaged(frame) => push_number(" frame ", frame, text),
        LogFault::NotALog(entry) => push_number(" entry ", entry, text),
        LogFault::HasBase(entry) => push_number(" entry ", entry, text),
        _ => {}
    }
}

/// Returns `refused NAME`, followed by ` frame N` or ` entry N` if the fault has one.
pub fn log_refusal_line(fault: LogFault) -> ArrayString<64>
    ensures { result.bytes ≡ log_refusal_text fault }
{
    let mut text = ArrayString::new();
    text.push_str("refused ");
    text.push_str(name_of(fault));
    push_place(fault, &mut text);
    text
}
