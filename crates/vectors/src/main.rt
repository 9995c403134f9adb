//! The published vectors of SHA-256 and HMAC-SHA-256: each digest beside what it should be, and whether they agree.
//! Then the digest of a pattern at each length from 0 to 130, which tests/digest_lengths.py holds to another implementation.
//! Last the shortest list there is, 30 00, with the refusal that it gets. Ends with an error if anything differs.
#![tactic(auto)]

use anyhow::{Result, anyhow};
use crl::read::read_list;
use digest::{Hasher, hmac_sha256, same_digest, sha256};
use hex::FromHex;
use std::{array, io, str};

// The hexadecimal digits of a digest, in an array: printing it takes no memory that could run out.
fn digits_of(digest: [u8; 32]) -> Result<[u8; 64]> {
    let mut digits = [0; 64];
    hex::encode_to_slice(digest, &mut digits)?;
    Ok(digits)
}

// A digest that was made, and what it should be, in hexadecimal digits.
#[derive(Clone, Copy)]
struct Vector {
    name: &'static str,
    got: [u8; 32],
    due: &'static str,
}

impl Vector {
    fn new(name: &'static str, got: [u8; 32], due: &'static str) -> Vector {
        Vector { name, got, due }
    }

    // Writes it with what it should be, and says whether the two agree.
    fn hold(&self, rt: &HostRuntime) -> Result<bool> {
        let Vector { name, got, due } = *self;
        let agree = same_digest(&got, &FromHex::from_hex(due)?);
        let digits = digits_of(got)?;
        let is = str::from_utf8(&digits)?;
        println!(rt; "{name}, agree {agree}")?;
        println!(rt; "  is        {is}")?;
        println!(rt; "  should be {due}")?;
        Ok(agree)
    }
}

// Writes each vector with what it should be, and says whether all agree.
fn hold(rt: &HostRuntime, vectors: &[Vector]) -> Result<bool> {
    let mut all = true;
    for v in vectors {
        all &= v.hold(rt)?;
    }
    Ok(all)
}

// The examples that NIST published with FIPS 180.
fn examples() -> [Vector; 4] {
    let long = b"abcdbcdecdefdefgefghfghighijhijkijkljklmklmnlmnomnopnopq";
    let longer =
        b"abcdefghbcdefghicdefghijdefghijkefghijklfghijklmghijklmnhijklmnoijklmnopjklmnopqklmnopqrlmnopqrsmnopqrstnopqrstu";
    [
        Vector::new(
            "SHA-256, no octets",
            sha256(b""),
            "e3b0c44298fc1c149afbf4c8996fb92427ae41e4649b934ca495991b7852b855",
        ),
        Vector::new(
            "SHA-256, abc",
            sha256(b"abc"),
            "ba7816bf8f01cfea414140de5dae2223b00361a396177a9cb410ff61f20015ad",
        ),
        Vector::new(
            "SHA-256, 448 bits",
            sha256(long),
            "248d6a61d20638b8e5c026930c3e6039a33ce45964ff2167f6ecedd419db06c1",
        ),
        Vector::new(
            "SHA-256, 896 bits",
            sha256(longer),
            "cf5b16a778af8380036ce59e7b0492370b249b11e8f07a51afac45037afee9d1",
        ),
    ]
}

// A million times the letter a, which NIST published too: as one message, and a thousand at a time.
fn million(message: &[u8]) -> [Vector; 2] {
    let due = "cdc76e5c9914fb9281a1c7e284d73e67f1809a48a497200e046d39ccc7112cd0";
    let mut h = Hasher::new();
    for part in message.chunks(1000) {
        h.absorb(part);
    }
    [
        Vector::new("SHA-256, a million times a", sha256(message), due),
        Vector::new("SHA-256, a million times a, in parts", h.finish(), due),
    ]
}

// The octets 0, 1, 2 and so on.
fn pattern() -> [u8; 130] {
    array::from_fn(|i| i as u8)
}

// Lengths at which the padding just fits into the last block, or just does not, or the last block is just full.
fn borders() -> [Vector; 6] {
    let m = pattern();
    [
        Vector::new(
            "SHA-256, 55 octets",
            sha256(&m[0..55]),
            "463eb28e72f82e0a96c0a4cc53690c571281131f672aa229e0d45ae59b598b59",
        ),
        Vector::new(
            "SHA-256, 56 octets",
            sha256(&m[0..56]),
            "da2ae4d6b36748f2a318f23e7ab1dfdf45acdc9d049bd80e59de82a60895f562",
        ),
        Vector::new(
            "SHA-256, 63 octets",
            sha256(&m[0..63]),
            "29af2686fd53374a36b0846694cc342177e428d1647515f078784d69cdb9e488",
        ),
        Vector::new(
            "SHA-256, 64 octets",
            sha256(&m[0..64]),
            "fdeab9acf3710362bd2658cdc9a29e8f9c757fcf9811603a8c447cd1d9151108",
        ),
        Vector::new(
            "SHA-256, 119 octets",
            sha256(&m[0..119]),
            "da18797ed7c3a777f0847f429724a2d8cd5138e6ed2895c3fa1a6d39d18f7ec6",
        ),
        Vector::new(
            "SHA-256, 120 octets",
            sha256(&m[0..120]),
            "f52b23db1fbb6ded89ef42a23ce0c8922c45f25c50b568a93bf1c075420bbb7c",
        ),
    ]
}

// A key of at most 32 octets, with zeros to 32: the block of HMAC's key ends in zeros anyway. By `zip`, so that no length is asked.
fn key_of(s: &[u8]) -> [u8; 32] {
    let mut key = [0u8; 32];
    for (k, x) in key.iter_mut().zip(s) {
        *k = *x;
    }
    key
}

// The cases of RFC 4231 whose keys have at most 32 octets. Of case 5 only the first 16 octets are published.
fn cases() -> [Vector; 5] {
    let m1 = hmac_sha256(&key_of(&[0x0b; 20]), b"Hi There");
    let m2 = hmac_sha256(&key_of(b"Jefe"), b"what do ya want for nothing?");
    let m3 = hmac_sha256(&key_of(&[0xaa; 20]), &[0xdd; 50]);
    let m4 = hmac_sha256(&key_of(&pattern()[1..26]), &[0xcd; 50]);
    let m5 = hmac_sha256(&key_of(&[0x0c; 20]), b"Test With Truncation");
    [
        Vector::new(
            "HMAC, RFC 4231 case 1",
            m1,
            "b0344c61d8db38535ca8afceaf0bf12b881dc200c9833da726e9376c2e32cff7",
        ),
        Vector::new(
            "HMAC, RFC 4231 case 2",
            m2,
            "5bdcc146bf60754e6a042426089575c75a003f089d2739839dec58b964ec3843",
        ),
        Vector::new(
            "HMAC, RFC 4231 case 3",
            m3,
            "773ea91e36800e46854db8ebd09181a72959098b3ef8c122d9635514ced565fe",
        ),
        Vector::new(
            "HMAC, RFC 4231 case 4",
            m4,
            "82558a389a443c0ea4cc819899f2083a85f0faa3e578f8077a2e3ff46729665b",
        ),
        Vector::new(
            "HMAC, RFC 4231 case 5",
            m5,
            "a3b6167473100ee06e0c796c2955552bfa6f7c0a6a8aef8b93f860aab0cd20c5",
        ),
    ]
}

// The digest of a message that comes in three parts.
fn in_parts(message: &[u8]) -> [u8; 32] {
    let (front, last) = message.split_at(message.len() / 2);
    let (first, second) = front.split_at(front.len() / 2);
    let mut h = Hasher::new();
    h.absorb(first);
    h.absorb(second);
    h.absorb(last);
    h.finish()
}

// Writes the digest of the first n octets of the pattern for each n, and says whether it is the same when they come in parts.
fn lengths(rt: &HostRuntime) -> Result<bool> {
    let octets = pattern();
    let mut all = true;
    for n in 0..=octets.len() {
        let message = &octets[..n];
        let whole = sha256(message);
        let agree = same_digest(&whole, &in_parts(message));
        let digits = digits_of(whole)?;
        let is = str::from_utf8(&digits)?;
        println!(rt; "length {n}, in parts too {agree}: {is}")?;
        all &= agree;
    }
    Ok(all)
}

// The list 30 00 misses its signed block: ground 6, in the list, at offset 2. By the numbers, since those are printed and never
// change.
fn shortest_list(rt: &HostRuntime) -> io::Result<bool> {
    let numbers = read_list(&[0x30, 0x00]).err().map(|refusal| (
        u8::from(refusal.ground),
        u8::from(refusal.input),
        refusal.offset,
    ));
    let agree = numbers == Some((6, 1, 2));
    println!(rt; "the list 30 00 is refused with 6, input 1, place 2: {agree}")?;
    Ok(agree)
}

fn main(rt: HostRuntime) -> Result<()> {
    let a = hold(&rt, &examples())?;
    let letters = Vec::from_elem(rt.alloc(), b'a', 1_000_000)?;
    let b = hold(&rt, &million(letters.as_slice()))?;
    let c = hold(&rt, &borders())?;
    let d = hold(&rt, &cases())?;
    println!(rt; "HMAC, RFC 4231 cases 6 and 7: left out, their keys have 131 octets")?;
    let e = lengths(&rt)?;
    let f = shortest_list(&rt)?;
    if a & b & c & d & e & f {
        println!(rt; "all agree")?;
        Ok(())
    } else {
        println!(rt; "some differ")?;
        Err(anyhow!("some differ"))
    }
}
