//! A law of the definitions, the contract of a function that does nothing.
ghost use Rattle.dw_certificate.specs.Laws.{CertificatesAreRight};

/// A certificate states a fact: there is a win within its number of moves, or there is none.
pub fn certificates_are_right()
    ensures { CertificatesAreRight }
{
    dw_solve::laws::closed_is_true()
}
