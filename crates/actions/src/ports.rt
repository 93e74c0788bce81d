// The port communication: send 3p + 1 and receive 3p + 2 join to 3p + 3, for the ports p from 0 to 19, and nothing else.
ghost use Rattle.std.specs.Prelude.{◌≡◌};
ghost use Rattle.actions.specs.Communications.{of_ports};
ghost use Rattle.transitions.proofs.Ported.{ports_lawful};
ghost use Rattle.transitions.specs.Communications.{ByPorts, sends};

use crate::communications::Communication;

#[derive(Clone, Copy, Debug, PartialEq, Eq)]
pub struct Ports;

impl Ports {
    pub fn new() -> Self
        ensures { ByPorts (of_ports result) }
    {
        Ports
    }
}

fn is_send(a: u8) -> bool
    ensures { result ≡ sends a }
{
    a < 60 && a % 3 == 1
}

impl Communication for Ports {
    ghost joins = { of_ports };

    ghost lawful = { λ _. ports_lawful };

    fn join(&self, a: u8, b: u8) -> Option<u8> {
        if is_send(a) && b == a + 1 {
            Some(a + 2)
        } else if is_send(b) && a == b + 1 {
            Some(b + 2)
        } else {
            None
        }
    }
}
