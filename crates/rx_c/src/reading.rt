ghost use Rattle.rx_c.specs.Told.{HoldsNothing};

use crate::refusal::Refusal;
use rx_records::Node;
use std::mem::size_of;

/// What was read, or why it was not. The caller owns the blocks of `nodes`, `groups`, `texts`, `spelling` and those of `refusal`, each where it is not empty, and
/// frees it by `free` of C.
#[repr(C)]
#[derive(Clone, Copy)]
pub struct Reading<'a> {
    /// Of a pattern that was read: its mode. 0 is without `u` and `v`, 1 with `u`, 2 with `v`.
    pub mode: u32,

    /// Always 0.
    pub spare: u32,

    /// Of a pattern that was read: the records of its nodes, in the order of the text, each before those that stand in it.
    pub nodes: &'a [Node],

    /// The indices of its capturing groups, by their numbers.
    pub groups: &'a [u32],

    /// In UTF-8, one after the other: the names and values of the nodes, or the texts that a refusal holds.
    pub texts: &'a [u8],

    /// In UTF-8: its canonical spelling, with NUL after it.
    pub spelling: &'a [u8],

    /// Why it was not read.
    pub refusal: Refusal<'a>,
}

const _: () = prove!(size_of::<Reading<'static>>() == 184);

impl<'a> Reading<'a> {
    /// Nothing was read, and nothing refused.
    pub fn empty() -> Reading<'a>
        ensures { HoldsNothing result }
    {
        Reading {
            mode: 0,
            spare: 0,
            nodes: &[],
            groups: &[],
            texts: &[],
            spelling: &[],
            refusal: Refusal::none(),
        }
    }
}
