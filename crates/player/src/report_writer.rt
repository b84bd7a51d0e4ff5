//! The writer of a report.
ghost use Rattle.std.specs.Prelude.{◌≡◌, [], ◌∷◌, length, refl};
ghost use Rattle.history.specs.Records.{record_of};
ghost use Rattle.report.specs.Lines.{record_line};
ghost use Rattle.report.specs.Totals.{sums_of, IsFew};
ghost use Rattle.player.specs.Accounts.{report_account};

use crate::hear_fault::HearFault;
use crate::listener::Listener;
use crate::totals_writer::write_totals;
use events::Event;
use history::Record;
use report::{Sums, line};
use sink_lines::write_line;
use td_base::LineBuf;
use td_outside::{Failed, Sink};
use topology::Topology;
use world::World;

/// The line that stands in place of further records.
pub const WIRE_FULL_LINE: &[u8] = b"wire full\n";

/// Writes a line for each record, and then the totals.
#[derive(Drop)]
pub struct ReportWriter<'a> {
    topology: &'a Topology,
    sums: Sums,
    buf: LineBuf,
}

impl<'a> ReportWriter<'a> {
    /// Before the first record of a scenario with these nodes.
    pub fn new(topology: &'a Topology) -> ReportWriter<'a>
        /// The report's listener writes each record's line, then the totals; that of the totals writes these alone.
        /// They do so as listeners.
        ensures { (result.topology.now ≡ topology.now) × (result.sums ≡ sums_of []) × IsFew result.sums }
    {
        ReportWriter {
            topology,
            sums: Sums::new(),
            buf: LineBuf::new(),
        }
    }
}

impl Listener for ReportWriter<'_> {
    ghost account = { report_account };

    ghost news = { λ t H r. record_line t (length H) (record_of r) ∷ [] };

    ghost keeps = { λ w t H. (w.topology.now ≡ t) × (w.sums ≡ sums_of H) × IsFew w.sums };

    ghost grows = { λ t H r. refl };

    fn begin<K: Sink>(&self, _out: &mut K) -> Result<(), Failed> {
        Ok(())
    }

    fn hear<K: Sink>(
        &mut self,
        _world: &World,
        _event: &Event,
        said: &Record,
        out: &mut K,
    ) -> Result<(), HearFault> {
        line(self.sums.records, said, self.topology, &mut self.buf);
        write_line(out, self.buf.as_slice())?;
        self.sums.add(said);
        Ok(())
    }

    fn end<K: Sink>(&mut self, _world: &World, out: &mut K) -> Result<(), Failed> {
        write_totals(&self.sums, out)
    }

    fn break_off<K: Sink>(&self, out: &mut K) -> Result<(), Failed> {
        write_line(out, WIRE_FULL_LINE)
    }
}
