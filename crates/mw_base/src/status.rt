ghost use Rattle.std.specs.Prelude.{◌≡◌, ℕ, IsTrue};
ghost use Rattle.std.specs.Option.{SomeIff};
ghost use Rattle.mw_model.specs.Statuses as plain;

use std::marker::Model;

/// What a slot is doing: unknown 0, connected 5, ready 10, playing 20, goal reached 30.
#[derive(Clone, Copy)]
pub struct ClientStatus {
    value: u8,
}

impl Model for ClientStatus {
    ghost Value = { ℕ };

    ghost view = { λ s. s.value };

    ghost invariant = { λ s. IsTrue (plain.is_client_status s.value) };

    ghost inverse = { λ n. record { value = n } };
}

impl ClientStatus {
    /// The status of this number; None exactly where it is none of 0, 5, 10, 20 and 30.
    pub fn new(value: u8) -> Option<Self>
        ensures { SomeIff result (IsTrue (plain.is_client_status value)) value }
    {
        if matches!(value, 0 | 5 | 10 | 20 | 30) {
            Some(ClientStatus { value })
        } else {
            None
        }
    }

    /// The number.
    pub fn get(&self) -> u8
        ensures value { result ≡ self.now }
        ensures range { IsTrue (plain.is_client_status result) }
    {
        self.value
    }
}

/// What is asked of a hint's location: unspecified 0, no priority 10, avoid 20, priority 30.
#[derive(Clone, Copy, PartialEq, Eq)]
pub struct HintStatus {
    value: u8,
}

impl Model for HintStatus {
    ghost Value = { ℕ };

    ghost view = { λ s. s.value };

    ghost invariant = { λ s. IsTrue (plain.is_hint_status s.value) };

    ghost inverse = { λ n. record { value = n } };
}

impl HintStatus {
    /// The status of this number; None exactly where it is none of 0, 10, 20 and 30.
    pub fn new(value: u8) -> Option<Self>
        ensures { SomeIff result (IsTrue (plain.is_hint_status value)) value }
    {
        if matches!(value, 0 | 10 | 20 | 30) {
            Some(HintStatus { value })
        } else {
            None
        }
    }

    /// The number.
    pub fn get(&self) -> u8
        ensures value { result ≡ self.now }
        ensures range { IsTrue (plain.is_hint_status result) }
    {
        self.value
    }
}
