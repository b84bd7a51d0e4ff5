//! Laws of messages as lists of bytes.
ghost use Rattle.icmp6.specs.Laws.{SpellingIsRead, MessageReadsBack, MessageIsBytes, OptionsReadBack};
ghost use Rattle.icmp6.specs.Numbers.{MessageNumbers};

/// As lists of bytes: a spelling is read as its message; a message's bytes are one; options that are joined are given
/// one by one. These are laws over all messages.
/// Needs: fields that fit, and what may come with the hop limit.
pub fn spelling_is_read()
    ensures { SpellingIsRead }
{}

/// The bytes of a message are a spelling of it, and read back.
/// See `spelling_is_read`.
pub fn message_reads_back()
    ensures { MessageReadsBack }
{}

/// The bytes of a message are those of its fields and what follows.
/// See `spelling_is_read`.
pub fn message_is_bytes()
    ensures { MessageIsBytes }
{}

/// Options that are joined are given one by one.
/// See `spelling_is_read`.
pub fn options_read_back()
    ensures { OptionsReadBack }
{}

/// Types, lengths and limits are the standards'.
pub fn message_numbers()
    ensures { MessageNumbers }
{}
