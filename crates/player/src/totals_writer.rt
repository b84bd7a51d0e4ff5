//! The writer of the totals alone.
ghost use Rattle.std.specs.Prelude.{◌≡◌, [], ◌∷◌, refl};
ghost use Rattle.report.specs.Totals.{sums_of, totals_line, IsFew};
ghost use Rattle.sink_lines.specs.Lines.{Writing};
ghost use Rattle.player.specs.Accounts.{totals_account};

use crate::hear_fault::HearFault;
use crate::listener::Listener;
use crate::report_writer::WIRE_FULL_LINE;
use events::Event;
use history::Record;
use report::{Sums, summary};
use sink_lines::write_line;
use td_base::LineBuf;
use td_outside::{Failed, Sink};
use world::World;

/// Writes the totals line.
pub(crate) fn write_totals<K: Sink>(sums: &Sums, out: &mut K) -> Result<(), Failed>
    ensures { Writing (K.state out.old) (K.state out.new) (totals_line sums.now ∷ []) result }
{
    let mut buf = LineBuf::new();
    summary(sums, &mut buf);
    write_line(out, buf.as_slice())
}

/// Writes the totals, and no line of a record.
#[derive(Drop)]
pub struct TotalsWriter {
    sums: Sums,
}

impl TotalsWriter {
    /// Before the first record.
    pub fn new() -> TotalsWriter
        /// See `ReportWriter::new`.
        ensures { (result.sums ≡ sums_of []) × IsFew result.sums }
    {
        TotalsWriter { sums: Sums::new() }
    }
}

impl Listener for TotalsWriter {
    ghost account = { totals_account };

    ghost news = { λ t H r. [] };

    ghost keeps = { λ w t H. (w.sums ≡ sums_of H) × IsFew w.sums };

    ghost grows = { λ t H r. refl };

    fn begin<K: Sink>(&self, _out: &mut K) -> Result<(), Failed> {
        Ok(())
    }

    fn hear<K: Sink>(
        &mut self,
        _world: &World,
        _event: &Event,
        said: &Record,
        _out: &mut K,
    ) -> Result<(), HearFault> {
        self.sums.add(said);
        Ok(())
    }

    fn end<K: Sink>(&mut self, _world: &World, out: &mut K) -> Result<(), Failed> {
        write_totals(&self.sums, out)
    }

    fn break_off<K: Sink>(&self, out: &mut K) -> Result<(), Failed> {
        write_line(out, WIRE_FULL_LINE)
    }
}
