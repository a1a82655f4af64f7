ghost use Rattle.std.specs.Prelude.{◌≡◌, ◌<◌, ◌≤◌, ◌^◌, ℕ, ℤ, pos, ◌≤ℤ◌, ◌<ℤ◌};
ghost use Rattle.std.specs.Option.{SomeIff};

use std::marker::Model;

/// A team's number, 0 to 7.
#[derive(Clone, Copy, Debug, PartialEq, Eq, Hash)]
pub struct TeamId {
    value: u8,
}

impl Model for TeamId {
    ghost Value = { ℕ };

    ghost view = { λ t. t.value };

    ghost invariant = { λ t. t.value < 8 };

    ghost inverse = { λ n. record { value = n } };
}

impl TeamId {
    /// The team of this number; None exactly where it isn't from 0 to 7.
    pub fn new(value: u8) -> Option<Self>
        ensures { SomeIff result (value < 8) value }
    {
        if value < 8 {
            Some(TeamId { value })
        } else {
            None
        }
    }

    /// The number.
    pub fn get(&self) -> u8
        ensures value { result ≡ self.now }
        ensures range { result < 8 }
    {
        self.value
    }
}

/// A slot's number, 1 to 1,024.
#[derive(Clone, Copy, Debug, PartialEq, Eq, Hash)]
pub struct SlotId {
    value: u16,
}

impl Model for SlotId {
    ghost Value = { ℕ };

    ghost view = { λ s. s.value };

    ghost invariant = { λ s. (1 ≤ s.value) × (s.value ≤ 1024) };

    ghost inverse = { λ n. record { value = n } };
}

impl SlotId {
    /// The slot of this number; None exactly where it isn't from 1 to 1,024.
    pub fn new(value: u16) -> Option<Self>
        ensures { SomeIff result ((1 ≤ value) × (value ≤ 1024)) value }
    {
        if 1 <= value && value <= 1024 {
            Some(SlotId { value })
        } else {
            None
        }
    }

    /// The number.
    pub fn get(&self) -> u16
        ensures value { result ≡ self.now }
        ensures range { (1 ≤ result) × (result ≤ 1024) }
    {
        self.value
    }
}

/// An item's number, 1 to 2^53 - 1.
#[derive(Clone, Copy, PartialEq, Eq)]
pub struct ItemId {
    value: i64,
}

impl Model for ItemId {
    ghost Value = { ℤ };

    ghost view = { λ i. i.value };

    ghost invariant = { λ i. (pos 1 ≤ℤ i.value) × (i.value <ℤ pos (2 ^ 53)) };

    ghost inverse = { λ n. record { value = n } };
}

impl ItemId {
    /// The id of this number; None exactly where it isn't from 1 to 2^53 - 1.
    pub fn new(value: i64) -> Option<Self>
        ensures { SomeIff result ((pos 1 ≤ℤ value) × (value <ℤ pos (2 ^ 53))) value }
    {
        if 1 <= value && value < 0x20_0000_0000_0000 {
            Some(ItemId { value })
        } else {
            None
        }
    }

    /// The number.
    pub fn get(&self) -> i64
        ensures value { result ≡ self.now }
        ensures range { (pos 1 ≤ℤ result) × (result <ℤ pos (2 ^ 53)) }
    {
        self.value
    }
}

/// A location's number, 1 to 2^53 - 1.
#[derive(Clone, Copy, Debug, PartialEq, Eq, Hash)]
pub struct LocId {
    value: i64,
}

impl Model for LocId {
    ghost Value = { ℤ };

    ghost view = { λ i. i.value };

    ghost invariant = { λ i. (pos 1 ≤ℤ i.value) × (i.value <ℤ pos (2 ^ 53)) };

    ghost inverse = { λ n. record { value = n } };
}

impl LocId {
    /// The id of this number; None exactly where it isn't from 1 to 2^53 - 1.
    pub fn new(value: i64) -> Option<Self>
        ensures { SomeIff result ((pos 1 ≤ℤ value) × (value <ℤ pos (2 ^ 53))) value }
    {
        if 1 <= value && value < 0x20_0000_0000_0000 {
            Some(LocId { value })
        } else {
            None
        }
    }

    /// The number.
    pub fn get(&self) -> i64
        ensures value { result ≡ self.now }
        ensures range { (pos 1 ≤ℤ result) × (result <ℤ pos (2 ^ 53)) }
    {
        self.value
    }
}

/// A session's number.
#[derive(Clone, Copy)]
pub struct SessionId {
    value: u64,
}

impl Model for SessionId {
    ghost Value = { ℕ };

    ghost view = { λ s. s.value };

    ghost inverse = { λ n. record { value = n } };
}

impl SessionId {
    /// The session of this number; every number is in range.
    pub fn new(value: u64) -> Option<Self>
        ensures { result ≡ Some value }
    {
        Some(SessionId { value })
    }

    /// The number.
    pub fn get(&self) -> u64
        ensures { result ≡ self.now }
    {
        self.value
    }
}
