ghost use Rattle.std.specs.Prelude.{◌≡◌};
ghost use Rattle.reply_lines.specs.ReportLines.{report_lines, lines_from};

use crate::line::ReplyLine;
use crate::text_lines::TextLines;
use or_geom::Items;
use std::marker::Model;
use tech_rules::Layer;
use tile_checker::Violation;

/// What lines are printed from.
#[derive(Debug, Drop)]
pub enum LineSource {
    /// The lines themselves.
    Made(Items<ReplyLine>),
    /// The lines themselves, in one buffer.
    Text(TextLines),
    /// The violations of a report over the layers of a technology. A report may have millions, so each line is made
    /// when it is printed.
    Report {
        layers: Items<Layer>,
        violations: Items<Violation>,
    },
}

/// The lines of an answer, in the order in which they are printed. Contracts see them as the list of their bytes.
#[derive(Debug, Drop)]
pub struct ReplyLines {
    source: LineSource,
}

impl Model for ReplyLines {
    ghost use Rattle.std.specs.Prelude.{List, ℕ};
    ghost use Rattle.reply_lines.specs.ReportLines.{lines_from};

    ghost Value = { List (List ℕ) };

    ghost view = { λ l. lines_from l.source };
}

impl ReplyLines {
    /// Lines that are made.
    pub fn made(lines: Items<ReplyLine>) -> Self
        ensures { result ≡ lines }
    {
        ReplyLines {
            source: LineSource::Made(lines),
        }
    }

    /// Lines that are made, in one buffer.
    pub(crate) fn text(lines: TextLines) -> Self
        ensures { result ≡ lines }
    {
        ReplyLines {
            source: LineSource::Text(lines),
        }
    }

    /// The lines of a report.
    pub fn report(layers: Items<Layer>, violations: Items<Violation>) -> Self
        ensures { result ≡ report_lines layers violations }
    {
        ReplyLines {
            source: LineSource::Report { layers, violations },
        }
    }

    /// What they are printed from.
    pub fn source(&self) -> &LineSource
        ensures { lines_from result.now ≡ self.now }
    {
        &self.source
    }
}
