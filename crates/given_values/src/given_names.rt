//! The names that options give to services and to the network.

use std::marker::Model;

/// The name of a program's service, and its provider if that is given too.
#[derive(Drop)]
pub struct ServiceName<'a> {
    pub program: u16,
    pub name: &'a str,
    pub provider: Option<&'a str>,
}

// A contract sees its texts as lists.
impl<'a> Model for ServiceName<'a> {
    ghost use Rattle.std.specs.Prelude.{option_map};
    ghost use Rattle.given_values.specs.GivenNames.{ServiceNameView};

    ghost Value = { ServiceNameView };

    ghost view = { λ n.
        record { program = n.program; name = n.name.now; provider = option_map (λ p. p.now) n.provider } };
}

/// The network of the network information table, and original_network_id if that is given too.
#[derive(Clone, Copy)]
pub struct NetworkName<'a> {
    /// network_id.
    pub id: u16,
    pub name: &'a str,
    pub original: Option<u16>,
}
