use ios_lex::Word;
use std::marker::Model;

/// On which side of address translation an interface lies.
#[derive(Clone, Copy, Debug, PartialEq, Eq)]
pub enum NatMark {
    Inside,
    Outside,
    Plain,
}

/// An interface of a router.
#[derive(Debug, Drop)]
pub struct Interface {
    pub name: Word,
    /// The place of the name in the table of all names of interfaces, from 0.
    pub number: u16,
    /// Each address and the length of its mask, at most 32.
    pub addresses: Vec<(u32, u8)>,
    /// The list that packets meet on their way in.
    pub list_in: Option<Word>,
    /// The list that packets meet on their way out.
    pub list_out: Option<Word>,
    pub mark: NatMark,
    pub shut: bool,
}

impl Model for Interface {
    ghost use Rattle.ios_route.specs.Interfaces.{Interface as InterfaceValue};

    ghost Value = { InterfaceValue };

    ghost view = { λ i. record {
      name = i.name;
      number = i.number;
      addresses = i.addresses.items;
      list_in = i.list_in;
      list_out = i.list_out;
      mark = i.mark;
      shut = i.shut;
    } };
}
