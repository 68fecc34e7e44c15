// "Sample: prediction (0 for INTRA) plus transform output, cut to 0..255."
ghost use Rattle.std.specs.Prelude.{◌≡◌, pos};
ghost use Rattle.laws.specs.Integer.{Low};
ghost use Rattle.quantiser.specs.Sample.{Sample, sample_of};

use crate::cut::{cut16, short};

pub fn sample(prediction: i32, difference: i32) -> i16
    requires { (Sample prediction) × (Low 256 difference) }
    ensures { result ≡ pos (sample_of prediction difference) }
{
    cut16(0, 255, short(prediction + difference))
}
