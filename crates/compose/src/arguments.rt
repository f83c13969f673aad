// An operator's arguments, with their defaults in place: read once a layer.
ghost use Rattle.std.specs.Prelude.{◌≡◌, ◌<◌};
ghost use Rattle.float_steps.specs.Notation.{◌⊘◌};
ghost use Rattle.float_steps.specs.Literals.{f100};
ghost use Rattle.layers.specs.Limits.{arg_words};
ghost use Rattle.compose.specs.Arguments.{arg_or, raw_arg, pair, blend_params, mask_params, threshold_params, map_params, raw_params, params_of};

use float_steps::order::finite;
use float_steps::words::value;
use layers::Args;
use operators::CompositeOp;
use pixels::Params;

// `arg`: argument i, or the default where it is missing or not finite.
#[tactic(auto, unfolding(crate::specs::Arguments::arg_by))]
fn arg(args: Args, i: usize, default: f32) -> f32
    requires { i < arg_words }
    ensures { result ≡ arg_or args i default }
{
    let v = value(args.words[i]);
    if i < args.count && finite(v) {
        v
    } else {
        default
    }
}

// Argument i as it stands; a missing one is 0.
#[tactic(auto, unfolding(crate::specs::Arguments::raw_by))]
fn raw(args: Args, i: usize) -> f32
    requires { i < arg_words }
    ensures { result ≡ raw_arg args i }
{
    if i < args.count {
        value(args.words[i])
    } else {
        0.0
    }
}

fn two(a: f32, b: f32) -> Params
    ensures { result ≡ pair a b }
{
    Params {
        a,
        b,
        c: 0.0,
        d: 0.0,
    }
}

fn blend_params(args: Args) -> Params
    ensures { result ≡ blend_params args }
{
    let a = arg(args, 0, 50.0) / 100.0;
    let b = arg(args, 1, 100.0 - a * 100.0) / 100.0;
    two(a, b)
}

// Two percentages with their defaults: Dissolve's and Modulate's.
fn percents(args: Args, first: f32, second: f32) -> Params
    ensures { result ≡ pair (arg_or args 0 first ⊘ f100) (arg_or args 1 second ⊘ f100) }
{
    two(arg(args, 0, first) / 100.0, arg(args, 1, second) / 100.0)
}

fn mask_params(args: Args) -> Params
    ensures { result ≡ mask_params args }
{
    two(arg(args, 0, 0.0), 0.0)
}

fn threshold_params(args: Args) -> Params
    ensures { result ≡ threshold_params args }
{
    two(arg(args, 0, 0.05), arg(args, 1, 1.0))
}

fn map_params(args: Args) -> Params
    ensures { result ≡ map_params args }
{
    let x = arg(args, 0, 20.0);
    let y = arg(args, 1, x);
    two(x, y)
}

fn raw_params(args: Args) -> Params
    ensures { result ≡ raw_params args }
{
    Params {
        a: raw(args, 0),
        b: raw(args, 1),
        c: raw(args, 2),
        d: raw(args, 3),
    }
}

// What the operator reads of its arguments.
#[tactic(auto, unfolding(crate::specs::Arguments::params_of))]
pub fn params(op: CompositeOp, args: Args) -> Params
    ensures { result ≡ params_of op args }
{
    match op {
        CompositeOp::Blend => blend_params(args),
        CompositeOp::Dissolve => percents(args, 50.0, 100.0),
        CompositeOp::ChangeMask => mask_params(args),
        CompositeOp::Threshold => threshold_params(args),
        CompositeOp::Modulate => percents(args, 100.0, 100.0),
        CompositeOp::Mathematics => raw_params(args),
        _ if op.is_map() => map_params(args),
        _ => two(0.0, 0.0),
    }
}
