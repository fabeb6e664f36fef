//! Bytes of a payload, and the parts of findings that are made of them.
ghost use Rattle.std.specs.Prelude.{◌≡◌, ◌-◌, ◌≤◌, IfOk, length, take, drop};
ghost use Rattle.pid_findings.specs.Shown.{is_borrowed, part_bytes, part_is_span, payload_list};

use crate::finding::Part;
use std::alloc::{AllocError, Allocator};

/// Bytes of a payload: borrowed for as long as findings live, or only while they are looked at.
#[derive(Clone, Copy)]
pub enum PayloadBytes<'p, 'a> {
    Borrowed(&'a [u8]),
    Copied(&'p [u8]),
}

/// Returns the bytes from one place to another, as far as they are there.
fn middle(bytes: &[u8], start: usize, end: usize) -> &[u8]
    ensures { result.now ≡ take (end - start) (drop start bytes.now) }
{
    if bytes.len() < start {
        return &[];
    }
    let (_, rest) = bytes.split_at(start);
    let size = end.saturating_sub(start);
    if rest.len() < size {
        return rest;
    }
    let (middle, _) = rest.split_at(size);
    middle
}

/// Returns the bytes themselves.
pub(crate) fn bytes_of<'p, 'a: 'p>(payload: PayloadBytes<'p, 'a>) -> &'p [u8]
    ensures { result.now ≡ payload_list payload.entry }
{
    match payload {
        PayloadBytes::Borrowed(bytes) => bytes,
        PayloadBytes::Copied(bytes) => bytes,
    }
}

/// Returns the bytes after the first `n`.
pub(crate) fn after<'p, 'a>(payload: PayloadBytes<'p, 'a>, n: usize) -> PayloadBytes<'p, 'a>
    requires { n ≤ length (payload_list payload) }
    ensures list { payload_list result ≡ drop n (payload_list payload.entry) }
    ensures borrowed { is_borrowed result ≡ is_borrowed payload.entry }
{
    match payload {
        PayloadBytes::Borrowed(bytes) => {
            let (_, rest) = bytes.split_at(n);
            PayloadBytes::Borrowed(rest)
        }
        PayloadBytes::Copied(bytes) => {
            let (_, rest) = bytes.split_at(n);
            PayloadBytes::Copied(rest)
        }
    }
}

/// Returns the bytes from `start` to `end` as the part of a finding: borrowed bytes as a slice, copied bytes copied.
pub(crate) fn part_of<'p, 'a, A: Allocator + Clone>(
    alloc: &A,
    payload: PayloadBytes<'p, 'a>,
    start: usize,
    end: usize,
) -> Result<Part<'a, A>, AllocError>
    ensures bytes { IfOk result (λ part. part_bytes part ≡ take (end - start)
        (drop start (payload_list payload.entry))) }
    ensures span { IfOk result (λ part. part_is_span part ≡ is_borrowed payload.entry) }
{
    match payload {
        PayloadBytes::Borrowed(bytes) => Ok(Part::Span(middle(bytes, start, end))),
        PayloadBytes::Copied(bytes) => Ok(Part::Joined(Vec::from_slice(
            alloc.clone()?,
            middle(bytes, start, end),
        )?)),
    }
}
