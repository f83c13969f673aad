// A layer's source, its part of the source samples. The single composition and the job both take it from here.
ghost use Rattle.std.specs.Prelude.{◌≡◌, ◌*◌, length};
ghost use Rattle.layers.specs.GoodLayers.{GoodLayer};
ghost use Rattle.compose.specs.Compose.{source_of};

use layers::Layer;

pub fn source_of(samples: &[u32], l: Layer) -> &[u32]
    requires { GoodLayer (length samples.now) l }
    ensures { (result.now ≡ source_of samples.now l.source)
        × (length result.now ≡ l.source.width * l.source.height * l.source.channels) }
{
    let source = l.source;
    let first = source.first;
    let end = first + source.width * source.height * source.channels;
    &samples[first..end]
}
