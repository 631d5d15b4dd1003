//! The text of a ratio.
ghost use Rattle.std.specs.Prelude.{◌≡◌, ◌≤◌, length};
ghost use Rattle.sr_text.specs.Numbers.{put_front};
ghost use Rattle.ratio.specs.Ratio.{in_thousandths};
ghost use Rattle.report.specs.Table.{ratio_text};

use ratio::Ratio;
use sr_text::write_thousandths;

/// Puts the ratio in thousandths at the front, or `-` where there is none, and answers its length.
pub(crate) fn put_ratio(ratio: &Ratio, into: &mut [u8; 24]) -> usize
    ensures len { result ≡ length (ratio_text (in_thousandths ratio.now.known ratio.now.traced)) }
    ensures short { result ≤ 24 }
    ensures text { into.new ≡ put_front (ratio_text (in_thousandths ratio.now.known ratio.now.traced)) into.old }
{
    match ratio.thousandths() {
        Some(ratio) => write_thousandths(ratio, into),
        None => {
            into[0] = b'-';
            1
        }
    }
}
