// The layers, in an account's words.
ghost use Rattle.std.specs.Prelude.{◌≡◌};
ghost use Rattle.telling.specs.Layers.{layer_words};

use words::fault::Layer;

// Which part of the check refuses. These are not the names that layers have as text, so no `Display` serves.
pub fn layer_name(layer: Layer) -> &'static str
    ensures { result.now ≡ layer_words layer }
{
    match layer {
        Layer::File => "the file",
        Layer::Task => "the task",
        Layer::Bank => "the states",
        Layer::Run => "the run",
    }
}
