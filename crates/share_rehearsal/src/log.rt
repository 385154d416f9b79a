//! A line of the log: a step's number and its answer.

ghost use Rattle.std.specs.Prelude.{◌≡◌, ◌++◌, ◌∷◌, codes, decimal, OnOk};
ghost use Rattle.share_rehearsal.specs.Log as spec;

use crate::answer::Answer;
use crate::names::{
    floor_name, gather_name, host_name, join_name, number_name, offer_name, save_name, snap_name,
    take_name,
};
use itoa::Buffer;
use share_law::{GatherFault, Gathered, HostFault, HostReply, TakeFault, Taken};
use std::alloc::AllocError;

/// Appends a word. On an error, the buffer is unchanged.
pub(crate) fn push_word(word: &str, out: &mut Vec<u8>) -> Result<(), AllocError>
    ensures { OnOk result (out.new.items ≡ out.old.items ++ word.now) }
{
    out.extend_from_slice(word.as_bytes())
}

/// Appends a word that ends in a space, then a number in decimal digits. On an error, part of them
/// may be appended.
pub(crate) fn push_number(word: &str, number: usize, out: &mut Vec<u8>) -> Result<(), AllocError>
    ensures { OnOk result (out.new.items ≡ out.old.items ++ word.now ++ decimal number) }
{
    out.extend_from_slice(word.as_bytes())?;
    let mut buffer = Buffer::new();
    out.extend_from_slice(buffer.format(number).as_bytes())
}

/// Appends the range of inputs that was asked for. On an error, part of it may be appended.
fn push_asked(first: u64, count: u64, out: &mut Vec<u8>) -> Result<(), AllocError>
    ensures { OnOk result (out.new.items
        ≡ out.old.items ++ codes "Asked " ++ decimal first ++ 32 ∷ decimal count) }
{
    push_number("Asked ", first as usize, out)?;
    push_number(" ", count as usize, out)
}

fn push_reply(reply: HostReply, out: &mut Vec<u8>) -> Result<(), AllocError>
    ensures { OnOk result (out.new.items ≡ out.old.items ++ spec.reply_text reply) }
{
    match reply {
        HostReply::Asked { first, count } => push_asked(first, count, out),
        HostReply::Numbered(number) => push_number("Numbered ", number as usize, out),
        HostReply::Repeat => push_word("Repeat", out),
        HostReply::Ahead => push_word("Ahead", out),
        HostReply::OldBoot => push_word("OldBoot", out),
        HostReply::Below(floor) => push_number("Below ", floor as usize, out),
        HostReply::NothingToDo => push_word("NothingToDo", out),
    }
}

fn push_taken(taken: Taken, out: &mut Vec<u8>) -> Result<(), AllocError>
    ensures { OnOk result (out.new.items ≡ out.old.items ++ spec.taken_text taken) }
{
    match taken {
        Taken::Old => push_word("Old", out),
        Taken::Beyond => push_word("Beyond", out),
        Taken::Held => push_word("Kept", out),
        Taken::Applied(count) => push_number("Applied ", count as usize, out),
        Taken::Noted => push_word("Noted", out),
        Taken::Behind => push_word("Behind", out),
    }
}

fn push_hosted(reply: Result<HostReply, HostFault>, out: &mut Vec<u8>) -> Result<(), AllocError>
    ensures { OnOk result (out.new.items ≡ out.old.items ++ spec.host_text reply) }
{
    match reply {
        Ok(reply) => push_reply(reply, out),
        Err(fault) => push_word(host_name(fault), out),
    }
}

fn push_viewed(taken: Result<Taken, TakeFault>, out: &mut Vec<u8>) -> Result<(), AllocError>
    ensures { OnOk result (out.new.items ≡ out.old.items ++ spec.take_text taken) }
{
    match taken {
        Ok(taken) => push_taken(taken, out),
        Err(fault) => push_word(take_name(fault), out),
    }
}

fn push_gathered(gathered: Gathered, out: &mut Vec<u8>) -> Result<(), AllocError>
    ensures { OnOk result (out.new.items ≡ out.old.items ++ spec.gathered_text gathered) }
{
    match gathered {
        Gathered::New => push_word("New", out),
        Gathered::Again => push_word("Again", out),
        Gathered::Whole => push_word("Whole", out),
        Gathered::Other => push_word("Other", out),
    }
}

fn push_collected(
    gathered: Result<Gathered, GatherFault>,
    out: &mut Vec<u8>,
) -> Result<(), AllocError>
    ensures { OnOk result (out.new.items ≡ out.old.items ++ spec.gather_text gathered) }
{
    match gathered {
        Ok(gathered) => push_gathered(gathered, out),
        Err(fault) => push_word(gather_name(fault), out),
    }
}

/// Appends the text of an answer. On an error, part of it may be appended.
pub(crate) fn push_answer(answer: Answer, out: &mut Vec<u8>) -> Result<(), AllocError>
    ensures { OnOk result (out.new.items ≡ out.old.items ++ spec.answer_text answer) }
{
    match answer {
        Answer::Clocked(Ok(number)) => push_number("Numbered ", number as usize, out),
        Answer::Clocked(Err(fault)) => push_word(number_name(fault), out),
        Answer::HostTook(result) => push_hosted(result, out),
        Answer::ViewerTook(result) => push_viewed(result, out),
        Answer::Offered(Ok(number)) => push_number("Offered ", number as usize, out),
        Answer::Offered(Err(fault)) => push_word(offer_name(fault), out),
        Answer::Sent(Some(packet)) => push_number("Packet ", packet, out),
        Answer::Sent(None) => push_word("None", out),
        Answer::Saved(Ok(snapshot)) => push_number("Saved ", snapshot, out),
        Answer::Saved(Err(fault)) => push_word(save_name(fault), out),
        Answer::Rewound(Ok(applied)) => push_number("Rewound ", applied as usize, out),
        Answer::Rewound(Err(fault)) => push_word(snap_name(fault), out),
        Answer::Dropped(Ok(floor)) => push_number("Floor ", floor as usize, out),
        Answer::Dropped(Err(fault)) => push_word(floor_name(fault), out),
        Answer::Collected(result) => push_collected(result, out),
        Answer::Joined(Ok(applied)) => push_number("Joined ", applied as usize, out),
        Answer::Joined(Err(fault)) => push_word(join_name(fault), out),
        Answer::Forgot => push_word("Forgot", out),
        Answer::NoSuch => push_word("NoSuch", out),
    }
}

/// Appends the line of a step. On an error, part of it may be appended.
#[tactic(auto, unfolding(crate::specs::Log::line_text))]
pub(crate) fn push_line(number: usize, answer: Answer, out: &mut Vec<u8>) -> Result<(), AllocError>
    ensures { OnOk result (out.new.items ≡ out.old.items ++ spec.line_text number answer) }
{
    push_number("", number, out)?;
    push_word(" ", out)?;
    push_answer(answer, out)?;
    push_word("\n", out)
}
