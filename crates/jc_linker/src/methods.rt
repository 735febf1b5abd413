//! Methods by class and token.
ghost use Rattle.std.specs.Prelude.{◌≡◌};
ghost use Rattle.jc_linker.specs.Classes.{lineage};
ghost use Rattle.jc_linker.specs.Methods.{implementation_in, if_native, inherits_method, interface_method_at, method_at, method_below, method_in, native_implementation, first_decided};
ghost use Rattle.jc_platform.specs.Platform.{method_by_token};

use crate::scope::Scope;
use crate::search::Search;
use crate::target::Method;
use jc_cap::pool::VirtualToken;
use jc_platform::names::{MethodKind, PlatformClass};
use jc_transient::ClassWord;

impl Scope<'_> {
    /// The method that a call by token on an instance of a class runs, through a class of the package with this
    /// number. It takes time that grows with the number of classes above.
    #[tactic(auto, unfolding(crate::specs::Methods::method_at))]
    #[inline(always)]
    pub(crate) fn method_at(
        &self,
        class: ClassWord,
        package_number: u8,
        token: VirtualToken,
    ) -> Option<Method>
        ensures { result ≡ method_at self.now class package_number token }
    {
        match token {
            VirtualToken::Public(token) => self.public_method(class, token),
            VirtualToken::PackageVisible(token) => self.package_method(
                class,
                package_number,
                token,
            ),
        }
    }

    #[tactic(auto, unfolding(crate::specs::Methods::method_at, crate::specs::Methods::first_decided))]
    fn public_method(&self, class: ClassWord, token: u8) -> Option<Method>
        ensures { result ≡ method_at self.now class 0 (VirtualToken.Public token) }
    {
        let mut walk = self.lineage(class);
        while let Some(above) = walk.pop() {
            match self.method_in(VirtualToken::Public(token), above) {
                Search::Found(method) => return Some(method),
                Search::Above => {}
                Search::Nowhere => return None,
            }
        }
        None
    }

    #[tactic(auto, unfolding(crate::specs::Methods::method_at, crate::specs::Methods::first_decided))]
    fn package_method(&self, class: ClassWord, package_number: u8, token: u8) -> Option<Method>
        ensures { result ≡ method_at self.now class package_number
            (VirtualToken.PackageVisible token) }
    {
        let mut walk = self.lineage(class);
        while let Some(above) = walk.pop() {
            if above.0 / 256 != u16::from(package_number) {
                continue;
            }
            match self.method_in(VirtualToken::PackageVisible(token), above) {
                Search::Found(method) => return Some(method),
                Search::Above => {}
                Search::Nowhere => return None,
            }
        }
        None
    }

    /// The method that a call by token runs on an instance of a class, where linking found this method for the class that
    /// the call names. It takes time that grows with the number of classes up to that one.
    #[tactic(auto, unfolding(crate::specs::Methods::method_below))]
    pub(crate) fn method_below(
        &self,
        own: ClassWord,
        class: ClassWord,
        token: VirtualToken,
        method: Method,
    ) -> Option<Method>
        ensures { result ≡ method_below self.now own class token method }
    {
        match token {
            VirtualToken::Public(token) => self.public_below(own, class, token, method),
            VirtualToken::PackageVisible(token) => self.package_below(own, class, token, method),
        }
    }

    #[tactic(auto, unfolding(crate::specs::Methods::method_below, crate::specs::Methods::first_decided))]
    fn public_below(
        &self,
        own: ClassWord,
        class: ClassWord,
        token: u8,
        method: Method,
    ) -> Option<Method>
        ensures { result ≡ method_below self.now own class (VirtualToken.Public token) method }
    {
        let mut walk = self.lineage(own);
        while let Some(above) = walk.pop() {
            if above == class {
                return Some(method);
            }
            match self.method_in(VirtualToken::Public(token), above) {
                Search::Found(found) => return Some(found),
                Search::Above => {}
                Search::Nowhere => return None,
            }
        }
        None
    }

    #[tactic(auto, unfolding(crate::specs::Methods::method_below, crate::specs::Methods::first_decided))]
    fn package_below(
        &self,
        own: ClassWord,
        class: ClassWord,
        token: u8,
        method: Method,
    ) -> Option<Method>
        ensures { result ≡ method_below self.now own class
            (VirtualToken.PackageVisible token) method }
    {
        let mut walk = self.lineage(own);
        while let Some(above) = walk.pop() {
            if above.0 / 256 != class.0 / 256 {
                continue;
            }
            if class == above {
                return Some(method);
            }
            match self.method_in(VirtualToken::PackageVisible(token), above) {
                Search::Found(found) => return Some(found),
                Search::Above => {}
                Search::Nowhere => return None,
            }
        }
        None
    }

    /// Whether a call by this public token on an instance of the first class runs the method that linking found for the second one, since the
    /// walk up from the first class comes to the second one and no class before says anything of the token.
    #[tactic(auto, unfolding(crate::specs::Methods::leads_to))]
    #[inline(never)]
    pub(crate) fn inherits_method(&self, own: ClassWord, class: ClassWord, token: u8) -> bool
        ensures { result ≡ inherits_method self.now own class token }
    {
        let mut walk = self.lineage(own);
        while let Some(next) = walk.pop() {
            if next == class {
                return true;
            }
            match self.method_in(VirtualToken::Public(token), next) {
                Search::Above => {}
                Search::Found(_) | Search::Nowhere => return false,
            }
        }
        false
    }

    // What a class says of a token.
    #[tactic(auto, unfolding(crate::specs::Methods::method_in))]
    fn method_in(&self, token: VirtualToken, class: ClassWord) -> Search<Method>
        ensures { result ≡ method_in self.now token class }
    {
        if let Some(loaded) = self.loaded_class(class) {
            let package_number = (class.0 / 256) as u8;
            return match token {
                VirtualToken::Public(token) => loaded.public_methods.find(package_number, token),
                VirtualToken::PackageVisible(token) => {
                    loaded.package_methods.find(package_number, token)
                }
            };
        }
        let Some(named) = self.platform.class_by_word(class) else {
            return Search::Nowhere;
        };
        match token {
            VirtualToken::Public(token) => self.native_in(named, token),
            VirtualToken::PackageVisible(_) => Search::Nowhere,
        }
    }

    fn native_in(&self, named: PlatformClass, token: u8) -> Search<Method>
        ensures { result ≡ if_native (method_by_token self.now.platform named
            MethodKind.Virtual token) }
    {
        match self
            .platform
            .method_by_token(named, MethodKind::Virtual, token)
        {
            Some(method) => Search::Found(Method::Native(method)),
            None => Search::Above,
        }
    }

    /// The method that a call of an interface's method by token on an instance of a class runs. It takes time that
    /// grows with the number of classes above.
    #[tactic(auto, unfolding(crate::specs::Methods::interface_method_at))]
    pub(crate) fn interface_method_at(
        &self,
        class: ClassWord,
        interface: ClassWord,
        token: u8,
    ) -> Option<Method>
        ensures { result ≡ interface_method_at self.now class interface token }
    {
        self.public_method(class, self.implemented_method(class, interface, token)?)
    }

    #[tactic(auto, unfolding(crate::specs::Methods::first_decided))]
    fn implemented_method(&self, class: ClassWord, interface: ClassWord, token: u8) -> Option<u8>
        ensures { result ≡ first_decided (implementation_in self.now interface token)
            (lineage self.now class) }
    {
        let mut walk = self.lineage(class);
        while let Some(above) = walk.pop() {
            match self.implementation_in(interface, token, above) {
                Search::Found(own) => return Some(own),
                Search::Above => {}
                Search::Nowhere => return None,
            }
        }
        None
    }

    // The token of the virtual method by which a class carries out a method of an interface.
    #[tactic(auto, unfolding(crate::specs::Methods::implementation_in))]
    fn implementation_in(&self, interface: ClassWord, token: u8, class: ClassWord) -> Search<u8>
        ensures { result ≡ implementation_in self.now interface token class }
    {
        if let Some(loaded) = self.loaded_class(class) {
            return loaded.implementing_token(interface, token);
        }
        match self.platform.class_by_word(class) {
            Some(named) => self.native_implementation(interface, token, named.interfaces()),
            None => Search::Nowhere,
        }
    }

    // The same by the first of these interfaces that is it.
    fn native_implementation(
        &self,
        interface: ClassWord,
        token: u8,
        implemented: &[PlatformClass],
    ) -> Search<u8>
        ensures { result ≡ native_implementation self.now interface token implemented.now }
    {
        let Some((named, others)) = implemented.split_first() else {
            return Search::Above;
        };
        if self.platform.class_word(*named) != interface {
            return self.native_implementation(interface, token, others);
        }
        let Some(method) = self
            .platform
            .method_by_token(*named, MethodKind::Interface, token)
        else {
            return Search::Nowhere;
        };
        match method.implementation() {
            Some(own) => Search::Found(self.platform.method_token(own)),
            None => Search::Nowhere,
        }
    }
}
