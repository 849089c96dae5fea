// What is proved of bytes and their answer, for every application and every certificate.
ghost use Rattle.fr_text.specs.Texts.{IsAnswerOne};
ghost use Rattle.fr_text.specs.Theorem.{YesIsSafe};

/// If bytes mean an application and a certificate for it, and the verdict on the two is yes, then no
/// state of any run of the application breaches any of the twelve rules.
pub fn yes_is_safe()
    ensures { YesIsSafe }
{}

/// The bytes of an application and of a certificate have one answer at the most: one application,
/// one verdict.
pub fn the_answer_is_one()
    ensures { IsAnswerOne }
{}
