//! Decoding one instruction after another from the front of a slice.

ghost use Rattle.std.specs.Prelude.{◌≡◌, ◌≤◌, ◌<◌, All, IfOk, IfErr, Some, length, map, option_map, slice_get, ℕ, Ok};
ghost use Rattle.std.specs.Prelude.{Err};
ghost use Rattle.std.specs.Option.{option_copied};
ghost use Rattle.x86_address.specs.Bytes.{Begins};
ghost use Rattle.vex_decode.specs.Blocked.{blocked};
ghost use Rattle.vex_decode.specs.Decode.{decode};
ghost use Rattle.vex_encode.specs.Sweep.{swept, joined, item_seen, IsPermitted, AreInPlace, EndsAfter};
ghost use Rattle.vex_encode.specs.Sweep.{item_at};

use crate::recoder::recode;
use crate::spelling::Spelling;
use std::alloc::Global;
use std::marker::Model;
use thiserror::Error;
use vex_decode::laws::prefix_free;
use x86_operand::{DecodeError, Instruction};
use x86_settings::InstDecoder;

/// There was no memory for the list of the items.
#[derive(Debug, Drop, Error)]
#[error("no memory")]
pub struct NoMemory;

/// An instruction of a sweep.
#[derive(Debug, Drop)]
pub struct SweepItem<'a> {
    /// How many bytes stand before it.
    pub place: usize,
    /// The bytes that were read, a part of those that were swept.
    pub bytes: &'a [u8],
    /// What they mean, and their number.
    pub instruction: Instruction,
    /// The canonical bytes of that meaning.
    pub spelling: Spelling,
}

/// How a sweep ends.
#[derive(Clone, Copy, PartialEq, Eq, Debug)]
pub enum SweepEnd {
    /// No byte is left.
    End,
    /// The rest, which isn't empty, is refused.
    Stopped {
        /// How many bytes stand before the rest.
        place: usize,
        /// The error of the first step that fails there.
        error: DecodeError,
    },
}

/// The items of a sweep, in order.
#[derive(Drop)]
pub struct Items<'a> {
    list: Vec<SweepItem<'a>>,
}

impl<'a> Model for Items<'a> {
    ghost use Rattle.std.specs.Prelude.{List, map};
    ghost use Rattle.vex_encode.specs.Sweep.{SweptItem, item_seen};

    ghost Value = { List SweptItem };

    ghost view = { λ items. map item_seen items.list.items };
}

impl<'a> Items<'a> {
    /// How many items there are.
    pub fn len(&self) -> usize
        ensures { result ≡ length self.now }
    {
        self.list.len()
    }

    /// The item at this place in the list, `None` exactly from `len` on.
    pub fn get(&self, i: usize) -> Option<&SweepItem<'a>>
        ensures { option_map item_seen (option_copied result) ≡ slice_get self.now i }
    {
        self.list.get(i)
    }

    /// The items, one after another.
    pub fn as_slice(&self) -> &[SweepItem<'a>]
        ensures { map item_seen result.now ≡ self.now }
    {
        self.list.as_slice()
    }
}

/// What a sweep found.
#[derive(Drop)]
pub struct SweepResult<'a> {
    /// The instructions, one after another.
    pub items: Items<'a>,
    /// How the sweep ends after them.
    pub end: SweepEnd,
}

/// The instruction at the front of bytes that stand at a place, or the error that blocks them.
fn item_at<'a>(
    decoder: &InstDecoder,
    place: usize,
    bytes: &'a [u8],
) -> Result<SweepItem<'a>, DecodeError>
    ensures first { IfOk result (λ item. decode decoder.now bytes.now ≡ Ok item.instruction) }
    ensures is { IfOk result (λ item. item_seen item ≡ item_at place bytes.now item.instruction) }
    ensures permitted { IfOk result (λ item. IsPermitted decoder.now (item_seen item)) }
    ensures some { IfOk result (λ item. 1 ≤ item.instruction.len) }
    ensures within { IfOk result (λ item. item.instruction.len ≤ length bytes.now) }
    ensures refused { IfErr result (λ error. decode decoder.now bytes.now ≡ Err error) }
    ensures blocked { IfErr result (λ error. (n : ℕ) × (blocked decoder.now bytes.now ≡ Some (error, n))) }
{
    // A law: a spelling has bytes.
    prefix_free();
    let (instruction, spelling) = recode(decoder, bytes)?;
    let len = usize::from(instruction.len());
    Ok(SweepItem {
        place,
        bytes: &bytes[..len],
        instruction,
        spelling,
    })
}

/// Decodes one instruction after another from the front of the bytes on, until none is left or the rest is refused, as
/// `recode` refuses it. It takes memory for the list of the items. `NoMemory` comes where there is none; nothing but
/// the list is lost then.
pub fn sweep<'a>(
    alloc: Global,
    decoder: &InstDecoder,
    bytes: &'a [u8],
) -> Result<SweepResult<'a>, NoMemory>
    // The instructions that stand there, and how the sweep ends.
    ensures items { IfOk result (λ found. found.items ≡ (swept decoder.now bytes.now).items) }
    ensures end { IfOk result (λ found. found.end ≡ (swept decoder.now bytes.now).end) }

    // They are permitted spellings, one after another from place 0 on, each with its canonical bytes.
    ensures permitted { IfOk result (λ found. All (IsPermitted decoder.now) found.items) }
    ensures in_place { IfOk result (λ found. AreInPlace 0 found.items) }

    // Joined, their bytes are the front that was read, and an error blocks what comes after it.
    ensures read { IfOk result (λ found. Begins (joined found.items) bytes.now) }
    ensures ends { IfOk result (λ found. EndsAfter decoder.now (joined found.items) bytes.now found.end) }
{
    let mut list = Vec::new(alloc);
    let mut place = 0;
    while place < bytes.len() {
        let item = match item_at(decoder, place, &bytes[place..]) {
            Ok(item) => item,
            Err(error) => {
                return Ok(SweepResult {
                    items: Items { list },
                    end: SweepEnd::Stopped { place, error },
                });
            }
        };
        place += item.bytes.len();
        if list.push(item).is_err() {
            return Err(NoMemory);
        }
    }
    Ok(SweepResult {
        items: Items { list },
        end: SweepEnd::End,
    })
}
