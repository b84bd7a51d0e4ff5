//! Laws of every history.
ghost use Rattle.theory_answers.specs.Answered.{EachSolicitationIsAnswered};
ghost use Rattle.theory_answers.specs.Asks.{EachQuestionIsOpen};
ghost use Rattle.theory_answers.specs.AtOnce.{EachAnswerAtOnceTells};
ghost use Rattle.theory_answers.specs.Heard.{EachHeardAnswerTells};
ghost use Rattle.theory_answers.specs.Questions.{EachQuestionTells};
ghost use Rattle.theory_answers.specs.Taken.{EachAnswerIsTaken};
ghost use Rattle.theory_answers.specs.Tells.{EachAnswerTells};
ghost use Rattle.theory_answers.specs.Throughout.{HistoriesTellAtOnce};

/// What a client asks its server at a tick is the question of the phase in which it is then, by its fate too, and the
/// nonce in it is open. A nonce is two words that it draws.
/// Leaves open: when a tick asks, of which `client_rules` speaks.
pub fn questions_are_open()
    ensures { EachQuestionIsOpen }
{}

/// A server's answer to a solicitation is an advertisement with its nonce, to where it came from, with that endpoint as
/// origin; from the other address where the client asks as a cone.
/// Needs: a server with made addresses, a client's inside endpoint that is made, a nonce of 64 bits; and an endpoint
/// that can be used and isn't the server's own address.
pub fn solicitations_are_answered()
    ensures { EachSolicitationIsAnswered }
{}

/// A client takes each advertisement of its server with a nonce that is open, from where it expects it, with an origin
/// that can be used: no line of its table comes before. Its phase gives the fate. This holds whatever address the
/// packet in it is for.
/// Needs: an advertisement that its server could make.
/// Leaves open: which nonces are open, of which `qualify` speaks.
pub fn answers_are_taken()
    ensures { EachAnswerIsTaken }
{}

/// An answer that a client takes has the fate that its phase and the NATs of its way give, and the fate tells of these
/// NATs. None changes its address. After `qualified_cone` each NAT is cone, after `symmetric` some NAT is symmetric,
/// after `qualified_restricted` and `same` none is. It is stated in `Tells.antt`, what disturbs in
/// `theory_ways/UndisturbedAlong.antt`.
/// Needs: a history of a topology that keeps its rules, which is honest for the client, and a chain that keeps its own;
/// that the client is undisturbed along its way, or doesn't try the cone phase and its NATs were kept open.
/// Leaves open: answers that are refused, or don't come.
pub fn answers_tell()
    ensures { EachAnswerTells }
{}

/// An answer to an open question that comes to the client has the fate that the phase and the NATs of the way tell. To
/// a client that asks as a cone one comes only where each NAT is cone.
/// Needs: a history of a topology that keeps its rules, which is honest for the client, and a chain that keeps its own;
/// that the client is undisturbed along its way, or doesn't try the cone phase and its NATs were kept open; and that
/// the entry that is delivered is such an answer, with the endpoint that it goes to as origin, and its way ends at the
/// client.
/// Leaves open: where its way ends.
pub fn heard_answers_tell()
    ensures { EachHeardAnswerTells }
{}

/// A question that is delivered to the client's server, where the entry that this makes of it is delivered next, is
/// answered with the fate that the phase and the NATs of the way tell.
/// Needs: a history of a topology that keeps its rules, which is honest for the client, and a chain that keeps its own;
/// that the client is undisturbed along its way, or doesn't try the cone phase and its NATs were kept open; and that
/// the entry that is delivered is such an answer, with the endpoint that it goes to as origin, and its way ends at the
/// client; that the question is one of its phase, open, with a nonce of 64 bits; that the server's record makes one
/// entry; and that its way ends at the client.
/// Leaves open: where its way ends; what is said of an answer after other records of the client.
pub fn answers_at_once_tell()
    ensures { EachAnswerAtOnceTells }
{}

/// Where a tick of a client asks in one entry, the client then does nothing, the entry is delivered, which makes one,
/// and this is delivered next, the fate of that is told by the tick's: after `rs_cone` it is `qualified_cone` where
/// each NAT of the way is cone, else `nat_closed`; after `rs_restricted` `first_answer`; after `rs_secondary`
/// `symmetric` where some NAT of the way is symmetric, else `qualified_restricted`; after `refresh` `same`.
/// Needs: a history of a topology that keeps its rules, which is honest for the client, and a chain that keeps its own;
/// that the client is undisturbed along its way, or doesn't try the cone phase and its NATs were kept open; and that
/// the entry that is delivered is such an answer, with the endpoint that it goes to as origin, and its way ends at the
/// client; that the question is one of its phase, open, with a nonce of 64 bits; that the server's record makes one
/// entry; and that its way ends at the client, to the end of that; and that nodes draw words of 32 bits, as in every
/// scenario: of larger ones the nonce doesn't fit into the datagram, and the answer is `nonce`.
/// Leaves open: which NAT closes, of which `replies_are_let_in` speaks; answers that are lost, or come later.
pub fn questions_tell()
    ensures { EachQuestionTells }
{}

/// Answers tell what the NATs of the way are at each record of every history.
/// Needs: a history of a topology that keeps its rules, which is honest for the client, and a chain that keeps its own;
/// that the client is undisturbed along its way, or doesn't try the cone phase and its NATs were kept open; and that
/// the entry that is delivered is such an answer, with the endpoint that it goes to as origin, and its way ends at the
/// client; that the question is one of its phase, open, with a nonce of 64 bits; that the server's record makes one
/// entry; and that its way ends at the client, to the end of that; and that nodes draw words of 32 bits, as in every
/// scenario: of larger ones the nonce doesn't fit into the datagram, and the answer is `nonce`.
pub fn histories_tell_at_once()
    ensures { HistoriesTellAtOnce }
{}
