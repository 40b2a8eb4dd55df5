//! Where a body may stand: a generation is the first body of its file, and side one begins with one.
ghost use Rattle.std.specs.Prelude.{◌≡◌, ◌+◌, ◌<◌, ◌^◌, ◌≤◌, length, Ok, None};
ghost use Rattle.gate_log.specs.Generations.{is_generation as spec_is_generation, misplaced_from, epoch_in, has_epoch as spec_has_epoch, may_begin as spec_may_begin, disorder as spec_disorder, epoch_of as spec_epoch_of, chosen_by, tail_of};
ghost use Rattle.gate_log.specs.Journal.{laid};
ghost use Rattle.gate_log.specs.Opened.{lists};

use crate::Why;
use zen_disk::Side;

/// The greatest epoch.
pub const LAST_EPOCH: u64 = 1 << 62;

// The first byte of a body that begins a generation: in version 1, and in version 2.
const OLD_GENERATION: u8 = 4;

const GENERATION: u8 = 132;

fn is_generation(body: &[u8]) -> bool
    ensures { result ≡ spec_is_generation body.now }
{
    !body.is_empty() && (body[0] == OLD_GENERATION || body[0] == GENERATION)
}

fn read_epoch(body: &[u8]) -> u64
    requires { 8 < length body.now }
    ensures { result ≡ epoch_in body.now }
{
    u64::from_be_bytes([
        body[1], body[2], body[3], body[4], body[5], body[6], body[7], body[8],
    ])
}

fn has_epoch(body: &[u8]) -> bool
    ensures { result ≡ spec_has_epoch body.now }
{
    if body.len() <= 8 {
        return false;
    }
    let epoch = read_epoch(body);
    1 <= epoch && epoch <= LAST_EPOCH
}

// Whether a body may stand first on this side.
fn may_begin(side: Side, body: &[u8]) -> bool
    ensures { result ≡ spec_may_begin side body.now }
{
    if is_generation(body) {
        return has_epoch(body);
    }
    match side {
        Side::Zero => true,
        Side::One => false,
    }
}

// The gate of the first of these bodies that begins a generation, where the first one's gate stands at `first`.
fn misplaced(bodies: &[Vec<u8>], first: u64) -> Option<u64>
    ensures { first + length (laid (lists bodies.now)) < 2 ^ 63 → result ≡ misplaced_from first (lists bodies.now) }
{
    let mut at = first;
    for body in bodies {
        if is_generation(body) {
            return Some(at);
        }
        at = at.saturating_add(5 + body.len() as u64);
    }
    None
}

// The gate of the first body that is not in order on this side.
pub(crate) fn disorder(side: Side, bodies: &[Vec<u8>]) -> Option<u64>
    ensures { 8 + length (laid (lists bodies.now)) < 2 ^ 63 → result ≡ spec_disorder side (lists bodies.now) }
{
    if bodies.len() < 1 {
        return None;
    }
    let body: &[u8] = &bodies[0];
    if !may_begin(side, body) {
        return Some(8);
    }
    let first = (body.len() as u64).saturating_add(13);
    misplaced(&bodies[1..], first)
}

// The epoch of a side with these bodies, all of them in order.
pub(crate) fn epoch_of(side: Side, bodies: &[Vec<u8>]) -> Option<u64>
    ensures { spec_disorder side (lists bodies.now) ≡ None → result ≡ spec_epoch_of side (lists bodies.now) }
{
    if bodies.is_empty() {
        return match side {
            Side::Zero => Some(0),
            Side::One => None,
        };
    }
    let first = &bodies[0];
    if !is_generation(first) {
        return Some(0);
    }
    if first.len() <= 8 {
        return Some(0);
    }
    Some(read_epoch(first))
}

// The side in use, by the epochs of both.
pub(crate) fn chosen(zero: Option<u64>, one: Option<u64>) -> Result<Side, Why>
    ensures { result ≡ chosen_by zero one }
{
    let Some(one) = one else {
        return Ok(Side::Zero);
    };
    let Some(zero) = zero else {
        return Ok(Side::One);
    };
    if zero == one {
        return Err(Why::Twin);
    }
    if zero < one {
        Ok(Side::One)
    } else {
        Ok(Side::Zero)
    }
}

// The offset from which the tail of these bodies counts.
pub(crate) fn start_of(bodies: &[Vec<u8>]) -> u64
    ensures { 8 + length (laid (lists bodies.now)) < 2 ^ 63 → result + tail_of (lists bodies.now) ≡ 8 + length (laid (lists bodies.now)) }
{
    if bodies.len() < 1 {
        return 8;
    }
    let first: &[u8] = &bodies[0];
    if is_generation(first) {
        return (first.len() as u64).saturating_add(13);
    }
    8
}
