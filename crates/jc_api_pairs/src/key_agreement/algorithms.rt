//! The algorithms of `KeyAgreement`.
ghost use Rattle.std.specs.Prelude.{◌≡◌};
ghost use Rattle.jc_api_pairs.specs.KeyAgreement.Algorithms.{agreement_named, agreement_with};

/// What is made of the point that both sides share.
#[derive(Clone, Copy)]
pub enum Secret {
    /// SHA-1 of its x.
    Hashed,
    /// Its x.
    Plain,
}

/// An algorithm of key agreement.
#[derive(Clone, Copy)]
pub struct AgreementAlgorithm {
    /// The multiple is by the cofactor too.
    pub with_cofactor: bool,
    pub secret: Secret,
}

// The algorithm with these properties.
fn agreement_with(with_cofactor: bool, secret: Secret) -> Option<AgreementAlgorithm>
    ensures { result ≡ agreement_with with_cofactor secret }
{
    Some(AgreementAlgorithm {
        with_cofactor,
        secret,
    })
}

/// The algorithm of a number.
pub fn agreement_named(number: i16) -> Option<AgreementAlgorithm>
    ensures { result ≡ agreement_named number }
{
    if number == 1 {
        agreement_with(false, Secret::Hashed)
    } else if number == 2 {
        agreement_with(true, Secret::Hashed)
    } else if number == 3 {
        agreement_with(false, Secret::Plain)
    } else if number == 4 {
        agreement_with(true, Secret::Plain)
    } else {
        None
    }
}
