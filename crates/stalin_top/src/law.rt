ghost use Rattle.stalin_top.specs.Headline.{Layers};

/// The laws of the layers that the top call stands on, in one place for a reader.
pub fn layers()
    ensures { Layers }
{
    stalin_outside::answers_are_of_an_environment();
    stalin_outside::console_shows_the_trace();
}
