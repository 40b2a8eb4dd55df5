//! Numbers of two digits or more, put at the end of bytes in decimal.
ghost use Rattle.std.specs.Prelude.{◌≡◌, ◌+◌, ◌/◌, ◌%◌, ◌<◌, ◌≤◌, ◌++◌, ◌∷◌, [], IsTrue, OnOk, decimal};
ghost use Rattle.std.specs.Vec.{vec_capacity, vec_len};

use itoa::Buffer;
use std::alloc::AllocError;

/// Puts a number at the end, without leading zeros.
pub fn put_number(bytes: &mut Vec<u8>, number: u64) -> Result<(), AllocError>
    requires { 10 ≤ number }
    ensures { OnOk result (bytes.new.items ≡ bytes.old.items ++ decimal number) }
{
    if number >= 10000 || !has_room(bytes, 4) {
        return put_long(bytes, number);
    }
    put_few(bytes, number);
    Ok(())
}

/// Puts a number at the end, without leading zeros, and the byte after it.
pub fn put_number_and(bytes: &mut Vec<u8>, number: u64, after: u8) -> Result<(), AllocError>
    requires { 10 ≤ number }
    ensures { OnOk result (bytes.new.items ≡ bytes.old.items ++ (decimal number ++ after ∷ [])) }
{
    if number >= 10000 || !has_room(bytes, 5) {
        return put_long_and(bytes, number, after);
    }
    put_few(bytes, number);
    bytes.push_reserved(after);
    Ok(())
}

// Whether so many bytes can be put without more memory.
#[inline(always)]
fn has_room(bytes: &Vec<u8>, count: usize) -> bool
    ensures { IsTrue result → vec_len bytes.now + count ≤ vec_capacity bytes.now }
{
    count <= bytes.capacity() - bytes.len()
}

// Puts a number of two to four digits, where there is room: so it takes neither a buffer nor a test of room for each part.
#[tactic(auto, using(crate::proofs::Digits::two_digits))]
#[inline(always)]
fn put_few(bytes: &mut Vec<u8>, number: u64)
    requires several { 10 ≤ number }
    requires few { number < 10000 }
    requires room { vec_len bytes.old + 4 ≤ vec_capacity bytes.old }
    ensures items { bytes.new.items ≡ bytes.old.items ++ decimal number }
    ensures len { vec_len bytes.new ≤ vec_len bytes.old + 4 }
    ensures capacity { vec_capacity bytes.new ≡ vec_capacity bytes.old }
{
    if number < 100 {
        put_pair(bytes, number);
        return;
    }
    if number < 1000 {
        bytes.push_reserved(b'0' + (number / 100) as u8);
        put_pair(bytes, number % 100);
        return;
    }
    put_pair(bytes, number / 100);
    put_pair(bytes, number % 100);
}

// Puts the two digits of a number below 100.
#[inline(always)]
fn put_pair(bytes: &mut Vec<u8>, number: u64)
    requires below { number < 100 }
    requires room { vec_len bytes.old + 2 ≤ vec_capacity bytes.old }
    ensures items { bytes.new.items ≡ bytes.old.items ++ (48 + number / 10) ∷ (48 + number % 10) ∷ [] }
    ensures len { vec_len bytes.new ≡ vec_len bytes.old + 2 }
    ensures capacity { vec_capacity bytes.new ≡ vec_capacity bytes.old }
{
    bytes.push_reserved(b'0' + (number / 10) as u8);
    bytes.push_reserved(b'0' + (number % 10) as u8);
}

// Puts a number of any size. It stands apart, so that the others have no frame for its buffer.
#[inline(never)]
fn put_long(bytes: &mut Vec<u8>, number: u64) -> Result<(), AllocError>
    ensures { OnOk result (bytes.new.items ≡ bytes.old.items ++ decimal number) }
{
    let mut buffer = Buffer::new();
    bytes.extend_from_slice(buffer.format(number).as_bytes())?;
    Ok(())
}

#[inline(never)]
fn put_long_and(bytes: &mut Vec<u8>, number: u64, after: u8) -> Result<(), AllocError>
    ensures { OnOk result (bytes.new.items ≡ bytes.old.items ++ (decimal number ++ after ∷ [])) }
{
    put_long(bytes, number)?;
    bytes.push(after)?;
    Ok(())
}
