//! The lines of what is said.
ghost use Rattle.std.specs.Prelude.{◌≡◌, ◌+◌, ◌≤◌, ◌++◌, length, decimal};
ghost use Rattle.td_explain.specs.Lines.{field16, skip_words, message_fault_words, reason_words, drawn_words_of, side_word, licensing_words};
ghost use Rattle.td_explain.specs.Lines.{skipped_line, other_line, asked_line, answered_line, tally_line};

use crate::answered::{Answered, Licensing};
use crate::question::{Drawn, Question, Reason};
use crate::tally::Tally;
use icmp6::IcmpFault;
use show::{FAULT_ROOM, PAGE_LEN, Page, put_ep, put_field, put_number, put_payload_fault};
use td_base::{NUMBER_LEN, Side};
use td_ipv4::Ip4Fault;

/// Room for each part of a line, in bytes.
pub const PART_ROOM: usize = 120;

/// The most bytes of a side's word.
const SIDE_LEN: usize = 9;

/// Appends the four digits of a field of 16 bits.
fn put_field16(word: &[u8], field: u16, page: &mut Page)
    requires { length page.old + length word.now + 4 ≤ PAGE_LEN }
    ensures text { page.new ≡ page.old ++ field16 word.now field }
    ensures long { length page.new ≡ length page.old + length word.now + 4 }
{
    page.push_text(word);
    page.push_digits(&field.to_be_bytes());
}

/// Appends why a record holds no datagram.
fn put_skip(fault: Ip4Fault, page: &mut Page)
    requires { length page.old + PART_ROOM ≤ PAGE_LEN }
    ensures text { page.new ≡ page.old ++ skip_words fault }
    ensures short { length page.new ≤ length page.old + PART_ROOM }
{
    match fault {
        Ip4Fault::Short { len } => put_field(b"short ", len, page),
        Ip4Fault::Version { nibble } => put_field(b"version ", usize::from(nibble), page),
        Ip4Fault::Head { words } => put_field(b"head ", usize::from(words), page),
        Ip4Fault::Length { said, there } => {
            put_field(b"length said ", said, page);
            put_field(b" there ", there, page);
        }
        Ip4Fault::Fragment { field } => put_field16(b"fragment ", field, page),
        Ip4Fault::Protocol { number } => put_field(b"protocol ", usize::from(number), page),
        Ip4Fault::UdpShort { len } => put_field(b"udp short ", len, page),
        Ip4Fault::UdpLength { said, there } => {
            put_field(b"udp length said ", said, page);
            put_field(b" there ", there, page);
        }
    }
}

/// Appends what is wrong with a message, each word behind a space.
fn put_message_fault(fault: IcmpFault, page: &mut Page)
    requires { length page.old + PART_ROOM ≤ PAGE_LEN }
    ensures text { page.new ≡ page.old ++ message_fault_words fault }
    ensures short { length page.new ≤ length page.old + PART_ROOM }
{
    match fault {
        IcmpFault::Short { len } => put_field(b" short ", len, page),
        IcmpFault::Sum { said, found } => {
            put_field16(b" sum said ", said, page);
            put_field16(b" found ", found, page);
        }
        IcmpFault::HopLimit { hop } => put_field(b" hop ", usize::from(hop), page),
        IcmpFault::Code { code } => put_field(b" code ", usize::from(code), page),
        IcmpFault::Source => page.push_text(b" source"),
        IcmpFault::OptionCut { place } => put_field(b" cut at ", place, page),
        IcmpFault::OptionZero { place } => put_field(b" zero at ", place, page),
    }
}

/// Appends why a datagram has its fate.
fn put_reason(reason: Option<Reason>, page: &mut Page)
    requires { length page.old + PART_ROOM ≤ PAGE_LEN }
    ensures text { page.new ≡ page.old ++ reason_words reason }
    ensures short { length page.new ≤ length page.old + PART_ROOM }
{
    match reason {
        None => {}
        Some(Reason::Payload(fault)) => put_payload_fault(fault, page),
        Some(Reason::Message(fault)) => put_message_fault(fault, page),
    }
}

/// Appends what a datagram draws.
fn put_drawn(drawn: Drawn, page: &mut Page)
    requires { length page.old + PART_ROOM ≤ PAGE_LEN }
    ensures text { page.new ≡ page.old ++ drawn_words_of drawn }
    ensures short { length page.new ≤ length page.old + PART_ROOM }
{
    match drawn {
        Drawn::Nothing => {}
        Drawn::Datagram { src, dst, len } => {
            page.push_text(b" =");
            put_ep(src, page);
            page.push_text(b">");
            put_ep(dst, page);
            put_field(b"/", len, page);
        }
        Drawn::Six { len } => put_field(b" =six/", len, page),
    }
}

/// A side's word.
fn side_word(side: Side) -> &'static [u8]
    ensures word { result.now ≡ side_word side }
    ensures short { length result.now ≤ SIDE_LEN }
{
    match side {
        Side::Primary => b"primary",
        Side::Secondary => b"secondary",
    }
}

/// Appends what licenses a datagram.
fn put_licensing(licensing: Licensing, page: &mut Page)
    requires { length page.old + PART_ROOM ≤ PAGE_LEN }
    ensures text { page.new ≡ page.old ++ licensing_words licensing }
    ensures short { length page.new ≤ length page.old + PART_ROOM }
{
    match licensing {
        Licensing::Licensed { by } => put_field(b" licensed by ", by as usize, page),
        Licensing::Again { place } => put_field(b" unlicensed again ", place as usize, page),
        Licensing::Near { place, at } => {
            put_field(b" unlicensed near ", place as usize, page);
            put_field(b" at ", at, page);
        }
        Licensing::Unasked => page.push_text(b" unlicensed"),
    }
}

/// Begins a line with a record's number, in place of what the page held.
fn begin(place: u64, page: &mut Page)
    ensures text { page.new ≡ decimal place }
    ensures short { length page.new ≤ NUMBER_LEN }
{
    page.clear();
    put_number(place as usize, page);
}

/// Puts the line of a record that holds no datagram in place of what the page held.
pub fn put_skipped_line(place: u64, fault: Ip4Fault, page: &mut Page)
    /// Each line is the text of what was said, with the record's number; the lines of one more record come behind those
    /// of the records before it.
    ensures { page.new ≡ skipped_line place fault }
{
    begin(place, page);
    page.push_text(b" skipped ");
    put_skip(fault, page);
    page.push_text(b"\n");
}

/// Puts the line of a record whose datagram is neither to the server nor from it.
pub fn put_other_line(place: u64, page: &mut Page)
    /// See `put_skipped_line`.
    ensures { page.new ≡ other_line place }
{
    begin(place, page);
    page.push_text(b" other\n");
}

/// Puts the line of a datagram to the server.
pub fn put_asked_line(place: u64, asked: &Question, page: &mut Page)
    /// See `put_skipped_line`.
    ensures { page.new ≡ asked_line place asked.now }
{
    begin(place, page);
    page.push_text(b" asked ");
    page.push_text(side_word(asked.side));
    page.push_text(b" ");
    put_ep(asked.src, page);
    page.push_text(b" ");
    page.push_text(asked.fate.name().as_bytes());
    put_reason(asked.reason, page);
    put_drawn(asked.drawn, page);
    page.push_text(b"\n");
}

/// Puts the line of a datagram from the server.
pub fn put_answered_line(place: u64, answered: &Answered, page: &mut Page)
    /// See `put_skipped_line`.
    ensures { page.new ≡ answered_line place answered.now }
{
    begin(place, page);
    page.push_text(b" answered ");
    put_ep(answered.dst, page);
    put_licensing(answered.licensing, page);
    page.push_text(b"\n");
}

/// Puts the line of the counts.
pub fn put_tally_line(tally: &Tally, page: &mut Page)
    /// See `put_skipped_line`.
    ensures { page.new ≡ tally_line tally.now }
{
    page.clear();
    put_field(b"total packets ", tally.packets as usize, page);
    put_field(b" asked ", tally.asked as usize, page);
    put_field(b" answered ", tally.answered as usize, page);
    put_field(b" skipped ", tally.skipped as usize, page);
    put_field(b" dropped ", tally.dropped as usize, page);
    put_field(b" silent ", tally.silent as usize, page);
    put_field(b" unlicensed ", tally.unlicensed as usize, page);
    page.push_text(b"\n");
}
