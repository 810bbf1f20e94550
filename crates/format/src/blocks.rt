// Layer 1: the file's length, each block's check and header, the blanks.
ghost use Rattle.std.specs.Prelude.{◌≡◌, ◌<◌, not, ◌&&◌, nat_lt, MatchOption};
ghost use Rattle.format.specs.Layout.{check_sum, record_count};
ghost use Rattle.format.specs.Refusals.{refusal_in, first_failing};
ghost use Rattle.format.specs.Checks.{wrong_length, wrong_check, wrong_header, some_nonzero, first_blank, blanks_wrong, block_checks, block_layer};
ghost use Rattle.format.specs.Changed.{OneChangedByteBreaksTheCheck};

use crate::bytes::all_zero;
use crate::checks::ensure;
use crate::faults::{BlockCause, Fault};
use crate::kinds::is_blank;
use crate::layout::{BLOCK, MOST_BLANKS, MOST_BLOCKS, SUMMED};
use crate::reader::Reader;

// The sum that the block's check should hold.
fn weighted_sum(block: &[u8; BLOCK]) -> u32
    ensures { result ≡ check_sum block.now }
{
    block[..SUMMED]
        .iter()
        .enumerate()
        .map(|(i, byte)| (i as u32 + 1) * u32::from(*byte))
        .sum()
}

fn check_right(block: &[u8; BLOCK]) -> bool
    ensures { result ≡ not (wrong_check block.now) }
{
    let [.., c3, c2, c1, c0] = *block;
    u32::from_be_bytes([c3, c2, c1, c0]) == weighted_sum(block)
}

fn header_right(block: &[u8; BLOCK], position: usize, count: usize) -> bool
    ensures { result ≡ not (wrong_header position count block.now) }
{
    let [p1, p0, c1, c0, ..] = *block;
    usize::from(u16::from_be_bytes([p1, p0])) == position
        && usize::from(u16::from_be_bytes([c1, c0])) == count
}

fn length_right(len: usize) -> bool
    ensures { result ≡ not (wrong_length len) }
{
    len % BLOCK == 0 && (BLOCK..=BLOCK * MOST_BLOCKS).contains(&len)
}

// The checks of one block, in their order.
fn check_block(block: &[u8; BLOCK], position: usize, count: usize) -> Result<(), Fault>
    ensures { refusal_in result ≡ first_failing (block_checks position count block.now) }
{
    ensure(check_right(block), BlockCause::Check, position)?;
    ensure(
        header_right(block, position, count),
        BlockCause::Header,
        position,
    )
}

// The place of the first record of kind 0, if there is one.
fn first_blank(file: &[u8]) -> Option<usize>
    ensures { MatchOption result
        (first_blank file.now ≡ record_count file.now)
        (λ first. (first < record_count file.now) × (first ≡ first_blank file.now)) }
{
    Reader::at(file, 0).position(|rec| is_blank(rec))
}

// Whether a record may stand behind that many blanks.
fn blank_right(rec: &[u8], blanks: usize) -> bool
    ensures { result ≡ (nat_lt blanks 8 && not (some_nonzero rec.now)) }
{
    blanks < MOST_BLANKS && all_zero(rec)
}

// Whether from record `first` on there are at most eight records, all zeros.
fn blanks_right(file: &[u8], first: usize) -> bool
    requires { first ≡ first_blank file.now }
    ensures { result ≡ not (blanks_wrong file.now) }
{
    Reader::at(file, first)
        .enumerate()
        .all(|(blanks, rec)| blank_right(rec, blanks))
}

// The block layer's checks, in their order.
pub fn check_blocks(file: &[u8]) -> Result<(), Fault>
    ensures { refusal_in result ≡ first_failing (block_layer file.now) }
{
    ensure(length_right(file.len()), BlockCause::Length, 0)?;
    let (blocks, _) = file.as_chunks::<BLOCK>();
    for (position, block) in blocks.iter().enumerate() {
        check_block(block, position, blocks.len())?;
    }
    match first_blank(file) {
        Some(first) => ensure(blanks_right(file, first), BlockCause::Blank, first),
        None => Ok(()),
    }
}

// The check sees any one changed byte.
#[tactic(auto, using(crate::proofs::OneByte::one_changed_byte))]
pub fn one_changed_byte_holds()
    ensures { OneChangedByteBreaksTheCheck }
{}
