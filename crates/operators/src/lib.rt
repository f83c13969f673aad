// The 70 operators of `CompositeOp` (composite.rs 46 to 194): their numbers, their conventions, and what a number names.
// The contracts cite specs/Operators and specs/Numbers, that of the match specs/Listed.
#![tactic(auto)]

ghost use Rattle.std.specs.Prelude.{◌≡◌};
ghost use Rattle.operators.specs.Operators.{op_at, convention, is_map};
ghost use Rattle.operators.specs.Numbers.{named, op_of};

mod table;

use faults::Fault;

// A compositing operator, in the order of `CompositeOp::ALL`.
#[derive(Clone, Copy, Debug, PartialEq, Eq)]
pub enum CompositeOp {
    Over,
    In,
    Out,
    Atop,
    Xor,
    Plus,
    Multiply,
    Screen,
    Overlay,
    Darken,
    Lighten,
    Difference,
    HardLight,
    SoftLight,
    ColorDodge,
    ColorBurn,
    Clear,
    Src,
    Dst,
    DstOver,
    DstIn,
    DstOut,
    DstAtop,
    MinusDst,
    MinusSrc,
    DivideDst,
    DivideSrc,
    ModulusAdd,
    ModulusSubtract,
    Exclusion,
    LinearBurn,
    LinearDodge,
    LinearLight,
    VividLight,
    PinLight,
    HardMix,
    PegtopLight,
    SoftBurn,
    SoftDodge,
    Stamp,
    Freeze,
    Reflect,
    Negate,
    Interpolate,
    Mathematics,
    Blend,
    Dissolve,
    Rmse,
    DarkenIntensity,
    LightenIntensity,
    Hue,
    Saturate,
    Luminize,
    Colorize,
    CopyRed,
    CopyGreen,
    CopyBlue,
    CopyAlpha,
    CopyCyan,
    CopyMagenta,
    CopyYellow,
    CopyBlack,
    ChangeMask,
    Bumpmap,
    Threshold,
    Displace,
    Distort,
    Blur,
    Intensity,
    Modulate,
}

// How an operator combines its blend with the alphas, `Convention` (composite.rs 909 to 914); specs/Operators says which does how.
#[derive(Clone, Copy, Debug, PartialEq, Eq)]
pub enum Convention {
    Premult,
    Divided,
    OnPremult,
    PremultOnly,
}

impl CompositeOp {
    // Every operator, in the order of their numbers.
    pub const ALL: [CompositeOp; 70] = [
        CompositeOp::Over,
        CompositeOp::In,
        CompositeOp::Out,
        CompositeOp::Atop,
        CompositeOp::Xor,
        CompositeOp::Plus,
        CompositeOp::Multiply,
        CompositeOp::Screen,
        CompositeOp::Overlay,
        CompositeOp::Darken,
        CompositeOp::Lighten,
        CompositeOp::Difference,
        CompositeOp::HardLight,
        CompositeOp::SoftLight,
        CompositeOp::ColorDodge,
        CompositeOp::ColorBurn,
        CompositeOp::Clear,
        CompositeOp::Src,
        CompositeOp::Dst,
        CompositeOp::DstOver,
        CompositeOp::DstIn,
        CompositeOp::DstOut,
        CompositeOp::DstAtop,
        CompositeOp::MinusDst,
        CompositeOp::MinusSrc,
        CompositeOp::DivideDst,
        CompositeOp::DivideSrc,
        CompositeOp::ModulusAdd,
        CompositeOp::ModulusSubtract,
        CompositeOp::Exclusion,
        CompositeOp::LinearBurn,
        CompositeOp::LinearDodge,
        CompositeOp::LinearLight,
        CompositeOp::VividLight,
        CompositeOp::PinLight,
        CompositeOp::HardMix,
        CompositeOp::PegtopLight,
        CompositeOp::SoftBurn,
        CompositeOp::SoftDodge,
        CompositeOp::Stamp,
        CompositeOp::Freeze,
        CompositeOp::Reflect,
        CompositeOp::Negate,
        CompositeOp::Interpolate,
        CompositeOp::Mathematics,
        CompositeOp::Blend,
        CompositeOp::Dissolve,
        CompositeOp::Rmse,
        CompositeOp::DarkenIntensity,
        CompositeOp::LightenIntensity,
        CompositeOp::Hue,
        CompositeOp::Saturate,
        CompositeOp::Luminize,
        CompositeOp::Colorize,
        CompositeOp::CopyRed,
        CompositeOp::CopyGreen,
        CompositeOp::CopyBlue,
        CompositeOp::CopyAlpha,
        CompositeOp::CopyCyan,
        CompositeOp::CopyMagenta,
        CompositeOp::CopyYellow,
        CompositeOp::CopyBlack,
        CompositeOp::ChangeMask,
        CompositeOp::Bumpmap,
        CompositeOp::Threshold,
        CompositeOp::Displace,
        CompositeOp::Distort,
        CompositeOp::Blur,
        CompositeOp::Intensity,
        CompositeOp::Modulate,
    ];

    // The operator at a place of `ALL`; past its end, Over.
    pub fn at(n: usize) -> CompositeOp
        ensures { result ≡ op_at n }
    {
        if n < Self::ALL.len() {
            Self::ALL[n]
        } else {
            CompositeOp::Over
        }
    }

    // What a number of a layer's row names: an operator; or the fault OPERATOR, where no operator has it, or CURVE.
    pub fn from_number(n: i64) -> Result<CompositeOp, Fault>
        ensures { result ≡ op_of n }
    {
        if n < 0 {
            return Err(Fault::Operator);
        }
        match table::lookup(n as u64) {
            Some(op) => op.carried(),
            None => Err(Fault::Operator),
        }
    }

    // The operator; or the fault CURVE where it is one of the two that are not carried.
    #[tactic(auto, using(crate::proofs::Numbers::not_carried, crate::proofs::Numbers::carried))]
    fn carried(self) -> Result<CompositeOp, Fault>
        ensures { result ≡ named self }
    {
        match self {
            CompositeOp::Interpolate | CompositeOp::Blur => Err(Fault::Curve),
            _ => Ok(self),
        }
    }

    // How the operator combines its blend with the alphas.
    pub fn convention(self) -> Convention
        ensures { result ≡ convention self }
    {
        match self {
            CompositeOp::Overlay
            | CompositeOp::HardLight
            | CompositeOp::SoftLight
            | CompositeOp::ColorDodge
            | CompositeOp::ColorBurn
            | CompositeOp::MinusDst
            | CompositeOp::MinusSrc
            | CompositeOp::LinearDodge
            | CompositeOp::LinearLight
            | CompositeOp::VividLight
            | CompositeOp::PinLight
            | CompositeOp::HardMix
            | CompositeOp::PegtopLight
            | CompositeOp::SoftBurn
            | CompositeOp::SoftDodge
            | CompositeOp::Freeze
            | CompositeOp::Reflect
            | CompositeOp::Mathematics => Convention::Divided,
            CompositeOp::Darken | CompositeOp::DivideDst | CompositeOp::DivideSrc =>
                Convention::OnPremult,
            CompositeOp::ModulusAdd
            | CompositeOp::ModulusSubtract
            | CompositeOp::Exclusion
            | CompositeOp::Negate
            | CompositeOp::Interpolate => Convention::PremultOnly,
            _ => Convention::Premult,
        }
    }

    // Whether the operator reads the source as a map rather than as a picture to blend.
    pub fn is_map(self) -> bool
        ensures { result ≡ is_map self }
    {
        matches!(
            self,
            CompositeOp::Displace | CompositeOp::Distort | CompositeOp::Blur
        )
    }
}
