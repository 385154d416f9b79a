//! Numbers of inputs and of viewers, in their ranges.

ghost use Rattle.std.specs.Prelude.{◌≡◌, IsTrue};
ghost use Rattle.x3d_values.specs.Ranges.{is_viewer};
ghost use Rattle.share_entries.specs.Head.{is_viewer_count};
ghost use Rattle.share_session.specs.Ranges.{is_number};

use std::marker::Model;

/// The largest number of an input in datagrams of version 2.
pub const MAX_NUMBER: u64 = 1 << 48;

/// Reports whether an input may have this number: 1 to `MAX_NUMBER`.
pub fn is_number(number: u64) -> bool
    ensures { result ≡ is_number number }
{
    number >= 1 && number <= MAX_NUMBER
}

/// The number of an input, 1 to `MAX_NUMBER`.
#[derive(Clone, Copy, PartialEq, Eq)]
pub struct Number {
    number: u64,
}

impl Model for Number {
    ghost use Rattle.std.specs.Prelude.{ℕ, IsTrue};
    ghost use Rattle.share_session.specs.Ranges.{is_number};

    ghost Value = { ℕ };

    ghost view = { λ n. n.number };

    ghost invariant = { λ n. IsTrue (is_number n.number) };

    ghost inverse = { λ n. record { number = n } };
}

impl Number {
    /// Makes a number. The caller checks it with `is_number`.
    pub fn new(number: u64) -> Number
        requires { IsTrue (is_number number) }
        ensures { result ≡ number }
    {
        Number { number }
    }

    /// Returns the number.
    pub fn get(self) -> u64
        ensures value { result ≡ self }
        ensures fits { IsTrue (is_number result) }
    {
        self.number
    }
}

/// A viewer's number, below `MAX_VIEWERS`.
#[derive(Clone, Copy, PartialEq, Eq)]
pub struct SeatNumber {
    who: u8,
}

impl Model for SeatNumber {
    ghost use Rattle.std.specs.Prelude.{ℕ, IsTrue};
    ghost use Rattle.x3d_values.specs.Ranges.{is_viewer};

    ghost Value = { ℕ };

    ghost view = { λ s. s.who };

    ghost invariant = { λ s. IsTrue (is_viewer s.who) };

    ghost inverse = { λ n. record { who = n } };
}

impl SeatNumber {
    /// Makes a viewer's number. The caller checks it with `is_viewer`.
    pub fn new(who: u8) -> SeatNumber
        requires { IsTrue (is_viewer who) }
        ensures { result ≡ who }
    {
        SeatNumber { who }
    }

    /// Returns the number.
    pub fn get(self) -> u8
        ensures value { result ≡ self }
        ensures fits { IsTrue (is_viewer result) }
    {
        self.who
    }
}

/// How many viewers a world has, 1 to `MAX_VIEWERS`.
#[derive(Clone, Copy, PartialEq, Eq)]
pub struct ViewerCount {
    count: u8,
}

impl Model for ViewerCount {
    ghost use Rattle.std.specs.Prelude.{ℕ, IsTrue};
    ghost use Rattle.share_entries.specs.Head.{is_viewer_count};

    ghost Value = { ℕ };

    ghost view = { λ c. c.count };

    ghost invariant = { λ c. IsTrue (is_viewer_count c.count) };

    ghost inverse = { λ n. record { count = n } };
}

impl ViewerCount {
    /// Makes a number of viewers. The caller checks it with `is_viewer_count` of share_entries.
    pub fn new(count: u8) -> ViewerCount
        requires { IsTrue (is_viewer_count count) }
        ensures { result ≡ count }
    {
        ViewerCount { count }
    }

    /// Returns the number of viewers.
    pub fn get(self) -> u8
        ensures value { result ≡ self }
        ensures fits { IsTrue (is_viewer_count result) }
    {
        self.count
    }
}
