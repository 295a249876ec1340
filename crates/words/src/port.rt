// The ports.
ghost use Rattle.std.specs.Prelude.{◌≡◌};
ghost use Rattle.words.specs.Paper.{port_number};

// The ports that an ALU function shows, in document 01's order.
#[derive(Clone, Copy, PartialEq, Eq)]
pub enum Port {
    O0,
    Ocout,
    Ovf,
    O1,
}

// Document 01's number.
impl From<Port> for u32 {
    ghost from_gives = { λ port number. number ≡ port_number port };

    fn from(port: Port) -> u32 {
        match port {
            Port::O0 => 0,
            Port::Ocout => 1,
            Port::Ovf => 2,
            Port::O1 => 3,
        }
    }
}
