//! The status that a report ends with.
ghost use Rattle.std.specs.Prelude.{◌≡◌};
ghost use Rattle.std.specs.List.{list_any};
ghost use Rattle.scp_history.specs.Status.{is_cut_line, is_notice, status};

use crate::line::Line;

/// Whether the line says that an archive is cut.
fn is_cut(line: &Line) -> bool
    ensures { result ≡ is_cut_line line.now }
{
    matches!(line, Line::Cut { .. })
}

/// Whether the line says more than the values of a ledger and the sums.
fn says_more(line: &Line) -> bool
    ensures { result ≡ is_notice line.now }
{
    !matches!(line, Line::Value { .. } | Line::End(_))
}

/// Whether a line says that an archive is cut.
fn has_cut(lines: &[Line]) -> bool
    ensures { result ≡ list_any is_cut_line lines.now }
{
    lines.iter().any(|line| is_cut(line))
}

/// Whether a line says more than the values of a ledger and the sums.
fn has_notice(lines: &[Line]) -> bool
    ensures { result ≡ list_any is_notice lines.now }
{
    lines.iter().any(|line| says_more(line))
}

/// The status: 1 where an archive is cut, else 4 where a line says more than the values of a ledger and the sums, else 0.
pub fn status_of(lines: &[Line]) -> u8
    ensures { result ≡ status lines.now }
{
    if has_cut(lines) {
        return 1;
    }
    if has_notice(lines) {
        return 4;
    }
    0
}
