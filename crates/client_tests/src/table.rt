//! What the table of replies says of a turn.

use rtsp_client::{Asked, Turn, Verdict};

/// Whether a turn is what the table says of a reply.
pub(crate) fn is_by_table(asked: Asked, verdict: Verdict, turn: Turn, has_ended: bool) -> bool {
    match verdict {
        Verdict::Waits | Verdict::UsesOptions | Verdict::Over => turn == Turn::GoesOn,
        Verdict::GoesOn => match asked {
            Asked::Describe => turn == Turn::ReadsDescription,
            Asked::SetUp | Asked::SetUpTarget => turn == Turn::GoesOn || has_ended,
            _ => turn == Turn::GoesOn,
        },
        Verdict::Follows => turn == Turn::Redirects || has_ended,
        Verdict::LeavesOut => matches!(turn, Turn::LeavesOut { .. }) || has_ended,
        Verdict::Challenged => turn == Turn::Challenged,
        Verdict::TargetAsksPassword | Verdict::SessionGone | Verdict::Refused => {
            matches!(turn, Turn::Ends(_)) && has_ended
        }
    }
}
