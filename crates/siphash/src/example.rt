ghost use Rattle.siphash.specs.Examples.{PublishedExample};

/// The definition gives the tag that was published for an example.
pub fn published_example_holds()
    ensures { PublishedExample }
{}
