//! Laws of pictures. Each law is the contract of a function that does nothing.

ghost use Rattle.std.specs.Prelude.{◌≡◌, ◌∷◌, [], ℕ, List};
ghost use Rattle.smx_types.specs.declared.transcript.Transcript.{Transcript};
ghost use Rattle.smx_types.specs.declared.view.BindingLine.{BindingLine};
ghost use Rattle.smx_types.specs.declared.view.DescriptorLine.{DescriptorLine};
ghost use Rattle.smx_types.specs.declared.view.FullLine.{FullLine};
ghost use Rattle.smx_types.specs.declared.view.HungLine.{HungLine};
ghost use Rattle.smx_types.specs.declared.view.LinkLine.{LinkLine};
ghost use Rattle.smx_types.specs.declared.view.RouteLine.{RouteLine};
ghost use Rattle.smx_draw.specs.Drawing.{HasPart};
ghost use Rattle.smx_draw.specs.Parts.{parts};
ghost use Rattle.smx_draw.specs.SvgFrame.{svg_foot};
ghost use Rattle.smx_draw.specs.Pictures.{HasEachInDot, HasEachInSvg, IsPictureOf};
ghost use Rattle.smx_draw.specs.WorkedMissing.{EachIsMissed, NothingIsMissed};
ghost use Rattle.smx_draw.specs.declared.form.Form.TheVariants.{Dot, Svg};
ghost use Rattle.smx_draw.specs.declared.parts.Part.TheVariants as part;

/// A picture contains an element for each driver and each part of what the transcript shows. The element of a link has
/// its id, its kind and its controlling stream. Each of the first eight messages of a queue has an element with its
/// serial, its address and its length, and one element has the number of the others, if there are any. An SVG also
/// contains the id of the next link and the serial of the next message.
pub fn each_part_has_its_element()
    ensures svg { (t : Transcript) (output : List ℕ) → IsPictureOf Svg t output → HasEachInSvg t.drivers t.view output }
    ensures next { (t : Transcript) (output : List ℕ) → IsPictureOf Svg t output
        → HasPart output (svg_foot t.view.next_id t.view.next_serial) }
    ensures dot { (t : Transcript) (output : List ℕ) → IsPictureOf Dot t output → HasEachInDot t.drivers t.view output }
{}

/// A transcript has only one picture for Graphviz.
pub fn a_transcript_has_one_text_for_graphviz()
    ensures { (t : Transcript) (one other : List ℕ) → IsPictureOf Dot t one → IsPictureOf Dot t other → one ≡ other }
{}

/// The condition that a text contains every part is not trivial. If there are only the example drivers, or only the
/// example lines of one kind, the empty text doesn't satisfy it. If there is no driver and no line, the empty text
/// satisfies it.
pub fn what_is_not_there_is_missed()
    ensures each { EachIsMissed }
    ensures nothing { NothingIsMissed }
{}

/// The parts of a view with two lines of each kind: every line is a part.
pub fn every_line_is_a_part()
    ensures { (l n : LinkLine) (h i : HungLine) (r s : RouteLine) (d e : DescriptorLine) (b c : BindingLine)
        (f g : FullLine) → parts [] (record {
          next_id = 1;
          next_serial = 1;
          fds = d ∷ e ∷ [];
          links = l ∷ n ∷ [];
          binds = b ∷ c ∷ [];
          routes = r ∷ s ∷ [];
          msgs = [];
          fulls = f ∷ g ∷ [];
          hungs = h ∷ i ∷ [];
        }) []
        ≡ part.Link l ∷ part.Link n ∷ part.Hung h ∷ part.Hung i ∷ part.Route r ∷ part.Route s
        ∷ part.Descriptor d ∷ part.Descriptor e ∷ part.Binding b ∷ part.Binding c ∷ part.Full f ∷ part.Full g
        ∷ [] }
{}
