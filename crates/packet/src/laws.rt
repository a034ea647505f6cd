// The laws of reading: facts about every frame, above the definitions that the reader's contracts cite.
ghost use Rattle.packet.specs.Laws.{PaddingNeverMatters, InPortStandsFirst, PartsLieInside};

// Padding never matters; the in-port stands first in the key and changes nothing else of it; the parts lie inside the frame.
pub fn reading_laws()
    ensures padding { PaddingNeverMatters }
    ensures port { InPortStandsFirst }
    ensures inside { PartsLieInside }
{}
