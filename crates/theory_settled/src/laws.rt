//! Laws of clients, and of the nodes that they name.
ghost use Rattle.theory_settled.specs.OwnAddress.{EachAddressIsOwn};
ghost use Rattle.theory_settled.specs.ItsNodes.{ClientsAreThere};

/// A client's address is made of its server's address, the flags of a cone bit and a word, and an origin that it was
/// told. This holds for every journal.
/// Leaves open: who told it.
pub fn address_is_own()
    ensures { EachAddressIsOwn }
{}

/// A client by its number is that node, and the server and the NAT that its row names are nodes, with the addresses
/// that it asks and is reached at.
/// Needs: for the last two, the rules of a topology.
pub fn client_is_there()
    ensures { ClientsAreThere }
{}
