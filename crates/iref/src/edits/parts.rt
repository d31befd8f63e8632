//! Edits of the path and of the parts of the authority, by the editors of these.
ghost use Rattle.std.specs.Prelude.{◌≡◌, true, is_some};
ghost use Rattle.iref_component.specs.PathEdits.{Borrows, IsEditorOf};
ghost use Rattle.iref_reference_text.specs.{offsets_of, context_of, is_reference, read_reference};
ghost use Rattle.iref.specs.{EditAnswers.{DoesEdit, is_authority_edit, is_path_edit}, EditSteps.{edit_step}};
ghost use Rattle.iref_component.specs.AuthorityEdits as authority;

use crate::edits::Edit;
use iref_component::authority_mut::{AuthorityMut, AuthorityPart};
use iref_component::path_mut::PathMut;
use iref_grammar::chars::CharSet;
use iref_path::target::PathTarget;
use iref_reference::owned::ReferenceBuf;
use iref_reference_text::reference_text::HeldRule;
use iref_splice::Memory;
use iref_splice::target::Target;

// Two traits, each for `ReferenceBuf` alone: the kit's borrow checker covers the calls of an editor
// only where its owner is a type parameter.

/// An owned reference whose path is edited in place.
pub trait PathOwner<C: CharSet>: PathTarget<C> {
    /// The editor of the path.
    fn path_editor(&mut self) -> PathMut<'_, C, Self>
        ensures same_reference { Borrows result self.entry.ghost_name }
        ensures editor { IsEditorOf result (Self.text self.old)
            (context_of (read_reference (Self.text self.old)))
            (offsets_of (Self.text self.old)).path.start
            (offsets_of (Self.text self.old)).path.end }
        ensures reference { is_reference C.tests (Self.text self.old) ≡ true };
}

impl<R: HeldRule, C: CharSet> PathOwner<C> for ReferenceBuf<R, C> {
    fn path_editor(&mut self) -> PathMut<'_, C, Self> {
        self.path_mut()
    }
}

/// Does an edit of the path.
pub fn edit_path<C: CharSet, T: PathOwner<C>>(
    owner: &mut T,
    edit: Edit<'_, C>,
) -> Result<(), Memory>
    requires { is_path_edit (edit_step edit) ≡ true }
    ensures { DoesEdit (edit_step edit.entry) (T.text owner.old) (T.text owner.new) result }
{
    let mut path = owner.path_editor();
    match edit {
        Edit::LazyPush(segment) => path.lazy_push(segment),
        Edit::Push(segment) => path.push(segment),
        Edit::JoinPath(other) => path.join(other),
        Edit::Pop => path.pop(),
        Edit::Normalize => path.normalize(),
        Edit::Clear => {
            path.clear();
            Ok(())
        }
        _ => unreachable!(),
    }
}

/// An owned reference whose authority is edited in place.
pub trait AuthorityOwner<C: CharSet>: Target<AuthorityPart, C> {
    /// The editor of the authority, where there is one.
    fn authority_editor(&mut self) -> AuthorityMut<'_, C, Self>
        requires { is_some (read_reference (Self.text self.old)).authority ≡ true }
        ensures same_reference { authority.Borrows result self.entry.ghost_name }
        ensures editor { authority.IsEditorAt result (Self.text self.old)
            (offsets_of (Self.text self.old)).authority }
        ensures reference { is_reference C.tests (Self.text self.old) ≡ true };
}

impl<R: HeldRule, C: CharSet> AuthorityOwner<C> for ReferenceBuf<R, C> {
    fn authority_editor(&mut self) -> AuthorityMut<'_, C, Self> {
        match self.authority_mut() {
            Some(authority) => authority,
            None => unreachable!(),
        }
    }
}

/// Edits a subcomponent of the authority, or replaces it.
pub fn edit_authority<C: CharSet, T: AuthorityOwner<C>>(
    owner: &mut T,
    edit: Edit<'_, C>,
) -> Result<(), Memory>
    requires part { is_authority_edit (edit_step edit) ≡ true }
    requires there { is_some (read_reference (T.text owner.old)).authority ≡ true }
    ensures { DoesEdit (edit_step edit.entry) (T.text owner.old) (T.text owner.new) result }
{
    let mut authority = owner.authority_editor();
    match edit {
        Edit::ReplaceAuthority(other) => authority.replace(other),
        Edit::SetUserInfo(user_info) => authority.set_user_info(user_info),
        Edit::SetHost(host) => authority.set_host(host),
        Edit::SetPort(port) => authority.set_port(port),
        Edit::SetPortU32(number) => authority.set_port_u32(number),
        _ => unreachable!(),
    }
}
