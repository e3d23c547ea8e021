//! What is true of generated programs.

ghost use Rattle.out_workload.specs.Law.{GeneratedTextsRead};

/// Every generated text reads: it is short enough, its tokens mean one program, whose variables are `a`, `b` and `c` and whose
/// statements are those that are drawn. The program's points and edges are within the limits, and so are the unknowns of its
/// system over intervals, so that none of these is refused. No edge leads back to an earlier point.
pub fn generated_texts_read()
    ensures { GeneratedTextsRead }
{}
